//! Tokens of a formula in infix order, put into postfix order.
use crate::{InfixToken, Operator, Token};
use std::alloc::{AllocError, Global};
use std::marker::Model;

/// The operators that wait for what is on their right, inside one pair of parentheses: one of `+ -`, and one of `* /`.
#[derive(Clone, Copy)]
pub struct Waiting {
    pub sum: Option<Operator>,
    pub product: Option<Operator>,
}

/// The tokens so far in postfix order, and the operators that wait: those round each open parenthesis, and those
/// inside the innermost.
#[derive(Drop)]
pub struct PostfixOrder {
    tokens: Vec<Token>,
    outer: Vec<Waiting>,
    here: Waiting,
    must: bool,
}

impl Model for PostfixOrder {
    ghost use Rattle.std.specs.Prelude.{reverse};
    ghost use Rattle.postfix_rules.specs.InfixReading.{OrderView};

    ghost Value = { OrderView };

    ghost view = { λ o. record { tokens = o.tokens.items; outer = reverse o.outer.items; here = o.here; must = o.must } };
}

impl PostfixOrder {
    ghost use Rattle.std.specs.Prelude.{◌≡◌, IfOk, OnOk, length};
    ghost use Rattle.postfix_rules.specs.InfixReading.{ended_tokens, factor_ended, operand_moved, operator_moved, order_moved, order_opened};
    ghost use Rattle.postfix_rules.specs.InfixReading.{order_begun, product_moved, put_out, sum_moved};
    ghost use Rattle.postfix_rules.specs.InfixReading as InfixReading;

    /// No token so far.
    pub fn new(alloc: Global) -> PostfixOrder
        ensures { result ≡ order_begun }
    {
        PostfixOrder {
            tokens: Vec::new(alloc),
            outer: Vec::new(alloc),
            here: Waiting {
                sum: None,
                product: None,
            },
            must: true,
        }
    }

    /// Whether a factor must begin.
    pub fn must_begin(&self) -> bool
        ensures { result ≡ self.now.must }
    {
        self.must
    }

    /// How many parentheses are open.
    pub fn open(&self) -> usize
        ensures { result ≡ length self.now.outer }
    {
        self.outer.len()
    }

    // Puts out an operator that has both its operands.
    fn put(&mut self, operator: Option<Operator>) -> Result<(), AllocError>
        ensures { OnOk result (self.new ≡ put_out self.old operator) }
    {
        if let Some(operator) = operator {
            self.tokens.push(Token::Operator(operator))?;
        }
        Ok(())
    }

    // Ends a factor.
    fn end_factor(&mut self) -> Result<(), AllocError>
        ensures { OnOk result (self.new ≡ factor_ended self.old) }
    {
        self.put(self.here.product)?;
        self.here.product = None;
        self.must = false;
        Ok(())
    }

    fn take_operand(&mut self, token: Token) -> Result<(), AllocError>
        ensures { OnOk result (self.new ≡ operand_moved self.old token) }
    {
        self.tokens.push(token)?;
        self.end_factor()
    }

    fn take_sum(&mut self, operator: Operator) -> Result<(), AllocError>
        ensures { OnOk result (self.new ≡ sum_moved self.old operator) }
    {
        self.put(self.here.sum)?;
        self.here = Waiting {
            sum: Some(operator),
            product: None,
        };
        self.must = true;
        Ok(())
    }

    fn take_product(&mut self, operator: Operator)
        ensures { self.new ≡ product_moved self.old operator }
    {
        self.here.product = Some(operator);
        self.must = true;
    }

    fn take_operator(&mut self, operator: Operator) -> Result<(), AllocError>
        ensures { OnOk result (self.new ≡ operator_moved self.old operator) }
    {
        match operator {
            Operator::Plus => self.take_sum(Operator::Plus),
            Operator::Minus => self.take_sum(Operator::Minus),
            Operator::Times => {
                self.take_product(Operator::Times);
                Ok(())
            }
            Operator::Over => {
                self.take_product(Operator::Over);
                Ok(())
            }
        }
    }

    fn open_parenthesis(&mut self) -> Result<(), AllocError>
        ensures { OnOk result (self.new ≡ order_opened self.old) }
    {
        self.outer.push(self.here)?;
        self.here = Waiting {
            sum: None,
            product: None,
        };
        self.must = true;
        Ok(())
    }

    fn close_parenthesis(&mut self) -> Result<(), AllocError>
        ensures { OnOk result (self.new ≡ InfixReading.closed self.old self.old.outer) }
    {
        let Some(around) = self.outer.pop() else {
            return Ok(());
        };
        self.put(self.here.sum)?;
        self.here = around;
        self.end_factor()
    }

    /// Takes one token more.
    #[tactic(auto, unfolding(crate::specs::InfixReading::order_moved))]
    pub fn take(&mut self, token: InfixToken) -> Result<(), AllocError>
        ensures { OnOk result (self.new ≡ order_moved self.old token) }
    {
        match token {
            InfixToken::Token(Token::Operator(operator)) => self.take_operator(operator),
            InfixToken::Token(operand) => self.take_operand(operand),
            InfixToken::Open => self.open_parenthesis(),
            InfixToken::Close => self.close_parenthesis(),
        }
    }

    /// The tokens in postfix order, if the sum that waits has ended.
    pub fn into_tokens(mut self) -> Result<Vec<Token>, AllocError>
        ensures { IfOk result (λ tokens. tokens.items ≡ ended_tokens self) }
    {
        let waiting = self.here.sum;
        self.put(waiting)?;
        Ok(self.tokens)
    }
}
