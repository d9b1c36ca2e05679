//! Replies and notes as text: a line of output for each.

mod heads;
mod hexadecimal;
mod line;
mod names;
mod note;
mod numbers;
mod results;
mod values;

pub use line::{
    LineBuffer, push_plain_line, push_ran_line, push_reply, push_reply_line, push_values_line,
};
pub use note::push_note_line;
