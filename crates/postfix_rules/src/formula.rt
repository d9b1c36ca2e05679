//! Formulas.
use crate::Token;
use std::alloc::{AllocError, Global};
use std::marker::Model;

/// A formula in postfix order over n native events: its tokens spell one tree. Source: papi_events.csv.
#[derive(Drop)]
pub struct Formula {
    tokens: Vec<Token>,
    natives: u32,
}

impl Model for Formula {
    ghost use Rattle.postfix_rules.specs.Faults.{FormulaView, IsFormula};

    ghost Value = { FormulaView };

    ghost view = { λ f. record { tokens = f.tokens.items; natives = f.natives } };

    ghost invariant = { λ f. IsFormula f.natives f.tokens.items };
}

impl Formula {
    ghost use Rattle.std.specs.Prelude.{◌≡◌, IfOk};
    ghost use Rattle.postfix_rules.specs.Faults.{IsFormula};

    // The formula of these tokens.
    pub(crate) fn new(tokens: Vec<Token>, natives: u32) -> Formula
        requires { IsFormula natives tokens.items }
        ensures { result ≡ record { tokens = tokens.items; natives = natives } }
    {
        Formula { tokens, natives }
    }

    /// A copy of a formula.
    pub fn copy_of(alloc: Global, f: &Formula) -> Result<Formula, AllocError>
        ensures { IfOk result (λ copy. copy ≡ f.now) }
    {
        let tokens = Vec::from_slice(alloc, f.tokens())?;
        Ok(Formula::new(tokens, f.natives))
    }

    /// The tokens in order.
    pub fn tokens(&self) -> &[Token]
        ensures tokens { result.now ≡ self.now.tokens }
        ensures formula { IsFormula self.now.natives self.now.tokens }
    {
        self.tokens.as_slice()
    }

    /// The number of native events that it is over.
    pub fn natives(&self) -> u32
        ensures natives { result ≡ self.now.natives }
    {
        self.natives
    }
}
