//! Formulas in postfix order, derived events, and the values that rules give of counts.
#![tactic(auto)]

pub mod derived;
pub mod fault;
pub mod formula;
mod infix_judging;
mod infix_part;
pub mod infix_reading;
mod infix_token;
mod judging;
pub mod laws;
pub mod limits;
mod piece;
mod postfix_order;
pub mod preset_book;
pub mod reading;
pub mod rule;
pub mod stack;
pub mod token;
pub mod writing;

pub use derived::{Derived, MOST_NATIVES, is_derived};
pub use fault::{FormulaCause, FormulaFault};
pub use formula::Formula;
pub use infix_reading::read_infix;
pub use infix_token::InfixToken;
pub use limits::{MOST_OPEN_PARENTHESES, MOST_OPERANDS};
pub use preset_book::PresetBook;
pub use reading::read_postfix;
pub use rule::{Rule, value_of};
pub use stack::{apply, eval};
pub use token::{Operator, Token};
pub use writing::write_formula;
