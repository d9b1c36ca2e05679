//! What is said of the marks that runs met, thread by thread.
ghost use Rattle.std.specs.Prelude.{◌≡◌, IfOk, string_bytes};
ghost use Rattle.std.specs.List.{list_any};
ghost use Rattle.papi_tools.specs.Marks.{is_bad, is_fault, mark_line, mark_lines, marked_said, outcome_at};

use crate::{Outcome, Output, Said};
use papi_base::{Bytes, cause_text};
use session_model::Ended;
use std::alloc::{AllocError, Global};

// Whether some mark is a fault.
fn has_fault(marks: &[Option<Ended>]) -> bool
    ensures { result ≡ list_any is_fault marks.now }
{
    marks.iter().any(|mark| matches!(mark, Some(Ended::Fault)))
}

// Whether some mark is a bad line.
fn has_bad_line(marks: &[Option<Ended>]) -> bool
    ensures { result ≡ list_any is_bad marks.now }
{
    marks.iter().any(|mark| matches!(mark, Some(Ended::Bad { line: _, cause: _ })))
}

// How a call ends whose runs met these marks.
fn outcome_of(marks: &[Option<Ended>]) -> Outcome
    ensures { result ≡ outcome_at marks.now }
{
    if has_fault(marks) {
        Outcome::ReadFault
    } else if has_bad_line(marks) {
        Outcome::Refused
    } else {
        Outcome::Whole
    }
}

// The line of a thread's mark, if it has one.
fn line_of(alloc: Global, t: usize, mark: Option<Ended>) -> Result<String, AllocError>
    ensures { IfOk result (λ line. string_bytes line ≡ mark_line t mark) }
{
    match mark {
        Some(Ended::Bad { line, cause }) => {
            let words = cause_text(cause);
            format!(in alloc; "papi: stream {t}: line {line}: {words}\n")
        }
        Some(Ended::Fault) => format!(in alloc; "papi: stream {t}: read failed\n"),
        Some(Ended::Going) | None => Ok(String::new(alloc)),
    }
}

// The lines on standard error of these marks, in the order of their threads.
fn lines_of(alloc: Global, marks: &[Option<Ended>]) -> Result<Bytes, AllocError>
    ensures { IfOk result (λ lines. lines ≡ mark_lines 0 marks.now) }
{
    let mut lines = Bytes::new(Vec::new(alloc));
    for t in 0..marks.len() {
        let line = line_of(alloc, t, marks[t])?;
        lines.append(line.as_bytes())?;
    }
    Ok(lines)
}

/// What is said of a run that met these marks: this output, and the lines of the marks.
pub fn marked(alloc: Global, marks: &[Option<Ended>], out: Output) -> Result<Said, AllocError>
    ensures { IfOk result (λ said. said ≡ marked_said marks.now out) }
{
    let err = lines_of(alloc, marks)?;
    let outcome = outcome_of(marks);
    Ok(Said { outcome, out, err })
}
