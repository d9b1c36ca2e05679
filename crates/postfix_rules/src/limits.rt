//! How much a formula may have: docs/FORMATS.md.

/// How many operands stand on the stack at most.
pub const MOST_OPERANDS: usize = 16;

/// How many parentheses are open at one place at most.
pub const MOST_OPEN_PARENTHESES: usize = 16;
