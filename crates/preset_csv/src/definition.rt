//! Presets that are computed.

use crate::kind::Kind;
use postfix_rules::Formula;
use std::marker::Model;

/// A preset that is computed of its native events by its kind: 1 to [`MOST_NATIVES`](postfix_rules::MOST_NATIVES) natives,
/// one if the preset is not derived, and a formula over as many exactly if its kind is `Postfix`. Source: papi_events.csv.
#[derive(Drop)]
pub struct Def {
    kind: Kind,
    formula: Option<Formula>,
    natives: Vec<String>,
}

impl Model for Def {
    ghost use Rattle.std.specs.Prelude.{map, string_bytes};
    ghost use Rattle.preset_csv.specs.Defs.{DefView, IsDef};

    ghost Value = { DefView };

    ghost view = { λ d. record { kind = d.kind; formula = d.formula; natives = map string_bytes d.natives.items } };

    ghost invariant = { λ d. IsDef (record { kind = d.kind; formula = d.formula; natives = map string_bytes d.natives.items }) };
}

impl Def {
    ghost use Rattle.std.specs.Prelude.{◌≡◌, map, string_bytes};
    ghost use Rattle.std.specs.Option.{option_copied};
    ghost use Rattle.preset_csv.specs.Defs.{IsDef};

    /// What is computed of these natives.
    pub fn new(kind: Kind, formula: Option<Formula>, natives: Vec<String>) -> Def
        requires { IsDef (record {
          kind = kind;
          formula = formula;
          natives = map string_bytes natives.items;
        }) }
        ensures { result ≡ record {
          kind = kind;
          formula = formula;
          natives = map string_bytes natives.items;
        } }
    {
        Def {
            kind,
            formula,
            natives,
        }
    }

    /// The kind.
    pub fn kind(&self) -> Kind
        ensures kind { result ≡ self.now.kind }
        ensures kept { IsDef self.now }
    {
        self.kind
    }

    /// The formula, if the kind is `Postfix`.
    pub fn formula(&self) -> Option<&Formula>
        ensures formula { option_copied result ≡ self.now.formula }
        ensures kept { IsDef self.now }
    {
        self.formula.as_ref()
    }

    /// The texts of the native events, in their order.
    pub fn natives(&self) -> &[String]
        ensures natives { map string_bytes result.now ≡ self.now.natives }
        ensures kept { IsDef self.now }
    {
        self.natives.as_slice()
    }

    /// The formula, if the kind is `Postfix`, taken out.
    pub fn into_formula(self) -> Option<Formula>
        ensures formula { result ≡ self.formula }
        ensures kept { IsDef self }
    {
        self.formula
    }
}
