//! The tokens of formulas.

/// An operator of a formula. `/` truncates toward zero, and gives 0 if the divisor is 0.
#[derive(Clone, Copy)]
pub enum Operator {
    Plus,
    Minus,
    Times,
    Over,
}

/// A token of a formula: a constant, a native event by its number from 0, or an operator. Source: papi_events.csv.
#[derive(Clone, Copy)]
pub enum Token {
    Constant(u64),
    Native(u32),
    Operator(Operator),
}
