//! Laws of lists of calls: what the calls of a thread and their replies say of its sets and of what its handler is told, what refused
//! calls leave as it was, and what the regions of a script count.
//! Each is the contract of a function that does nothing, over definitions of its own. Worked rows are computed by the definitions.
#![tactic(auto)]

pub mod conflicts;
pub mod passings;
pub mod refusing;
pub mod regions;
pub mod rows;
pub mod tapes;
pub mod threads;
pub mod values;

pub use conflicts::counter_laws;
pub use passings::overflow_law;
pub use refusing::{code_laws, refusal_laws};
pub use regions::{
    begun_law, counting_law, exact_law, reading_law, readings_fit, script_law, span_law,
};
pub use rows::{
    allocation_rows, counting_rows, multiplexing_rows, preset_rows, refusal_rows, thread_rows,
    threshold_rows,
};
pub use tapes::{stream_law, tape_exact_law, tape_laws};
pub use threads::thread_laws;
pub use values::{accum_law, value_laws};
