//! The listings of events as text: what the tools papi_avail and papi_native_avail print.

pub mod laws;
mod lines;
mod named_event;
mod native_events;
mod native_lists;
mod preset_events;
mod preset_lists;

pub use named_event::NamedEvent;
pub use native_events::native_event;
pub use native_lists::native_list;
pub use preset_events::avail_event;
pub use preset_lists::avail_list;
