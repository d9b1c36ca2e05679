//! What all layers share: codes, native events, occurrences, domains, lists of at most 32 items, and the outside: sources, sinks and files.
#![tactic(auto)]

pub mod adapter;
pub mod bits;
pub mod bytes;
pub mod code;
pub mod files;
pub mod limits;
pub mod memory;
pub mod native;
pub mod occurrence;
pub mod outside;
pub mod shape;
pub mod short_list;
pub mod sure;
pub mod sure_files;
pub mod text;
pub mod whole;

pub use adapter::{ReadSource, WriteSink};
pub use bits::{Domain, StateBits};
pub use bytes::Bytes;
pub use code::{Code, code_name, code_number};
pub use files::MemFiles;
pub use limits::{
    FIRST_NATIVE_CODE, FIRST_USER_EVENT_CODE, LARGEST_AMOUNT, LAST_STAMP, LEAST_THRESHOLD,
    LEAST_WIDTH, LONGEST_SLICE, MOST_COMPONENTS, MOST_COUNTERS, MOST_ITEMS, MOST_OCCURRENCES,
    MOST_SET_EVENTS, MOST_SET_NATIVES, MOST_SETS, MOST_WIDTH, THREADS,
};
pub use memory::{MemSink, MemSource};
pub use native::{EventRef, Mods, Native};
pub use occurrence::{LineCause, Occ, cause_text, weight};
pub use outside::{Ending, Failed, Files, OpenFail, Sink, Source, WriteFail};
pub use shape::{CompShape, Shape};
pub use short_list::{Counts, Events, Natives, Places, ShortList, Values};
pub use sure::{SureSink, SureSource};
pub use sure_files::SureFiles;
pub use text::Text;
pub use whole::{WholeFault, read_whole, write_whole};
