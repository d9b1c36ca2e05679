//! Names of native events after libpfm4, and their codes.
#![tactic(auto)]

mod attribute;
mod canonical;
mod code;
mod encoder;
mod fault;
mod fixed;
mod found;
mod native;
mod parts;

pub use crate::canonical::write_name;
pub use crate::code::code64;
pub use crate::encoder::encode;
pub use crate::fault::{NameFault, cause_code, cause_word};
pub use crate::found::Found;
pub use crate::native::native_with;
