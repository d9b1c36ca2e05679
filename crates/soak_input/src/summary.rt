//! The summary.
ghost use Rattle.std.specs.Prelude.{◌≡◌, ◌++◌, IfOk, OnOk, string_bytes};
ghost use Rattle.std.specs.Int.{int_wrapping_add, w64};
ghost use Rattle.soak_input.specs.Summary.{add_values, sum_of, summary_text, thread_line, thread_lines, values_text};

use papi_base::Values;
use std::alloc::{AllocError, Global};
use std::fmt::Write;

/// What a thread's event set counted, and how many notes its handler was told.
#[derive(Drop)]
pub struct ThreadTotal {
    pub values: Values,
    pub notes: u64,
}

fn push_values(text: &mut String, values: &Values) -> Result<(), AllocError>
    ensures { OnOk result (string_bytes text.new
        ≡ string_bytes text.old ++ values_text values.now) }
{
    for i in 0..values.len() {
        let value = values.at(i);
        write!(text, " {value}")?;
    }
    Ok(())
}

fn push_thread(text: &mut String, thread: usize, total: &ThreadTotal) -> Result<(), AllocError>
    ensures { OnOk result (string_bytes text.new
        ≡ string_bytes text.old ++ thread_line thread total.now) }
{
    write!(text, "thread {thread}:")?;
    push_values(text, &total.values)?;
    let notes = total.notes;
    writeln!(text, " notes {notes}")
}

fn wrapped_sum(sum: i64, value: i64) -> i64
    ensures { result ≡ int_wrapping_add w64 sum value }
{
    sum.wrapping_add(value)
}

// Adds values to a sum.
fn add_values(start: i64, values: &Values) -> i64
    ensures { result ≡ add_values start values.now }
{
    let mut sum = start;
    for i in 0..values.len() {
        sum = wrapped_sum(sum, values.at(i));
    }
    sum
}

fn sum_of(totals: &[ThreadTotal]) -> i64
    ensures { result ≡ sum_of totals.now }
{
    let mut sum = 0;
    for total in totals {
        sum = add_values(sum, &total.values);
    }
    sum
}

/// The summary of a soak: a line for each thread, how many replies the script had, and the sum of all values, which wraps to signed
/// 64 bits.
#[tactic(auto, unfolding(crate::specs::Summary::summary_text))]
pub fn summary_text(
    alloc: Global,
    totals: &[ThreadTotal],
    replies: usize,
) -> Result<String, AllocError>
    ensures { IfOk result (λ text. string_bytes text ≡ summary_text totals.now replies) }
{
    let mut text = String::new(alloc);
    for (thread, total) in totals.iter().enumerate() {
        push_thread(&mut text, thread, total)?;
    }
    let sum = sum_of(totals);
    writeln!(text, "replies {replies}\nsum {sum}")?;
    Ok(text)
}
