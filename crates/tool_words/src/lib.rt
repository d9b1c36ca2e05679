//! The words of each tool, read by `clap`, and what they ask for.
#![tactic(auto)]

ghost use Rattle.std.specs.Prelude.{◌≡◌, map, string_bytes};
ghost use Rattle.tool_words.specs.Form.{form, tool_of};
ghost use Rattle.tool_words.specs.Words.{Answers};

mod argument;
pub mod command;
pub mod count;
pub mod fault;
mod matches;
pub mod presets;
mod script;
pub mod streams;
pub mod texts;
mod tool;
pub mod workers;

// tools/make_tools: begin modules
pub mod avail;
pub mod chooser;
pub mod decode;
pub mod encode;
pub mod native_avail;
pub mod profil;
pub mod regions;
pub mod run;
pub mod soak;

pub use avail::AvailWords;
pub use chooser::ChooserWords;
pub use decode::DecodeWords;
pub use encode::EncodeWords;
pub use native_avail::NativeAvailWords;
pub use profil::ProfilWords;
pub use regions::RegionsWords;
pub use run::RunWords;
pub use soak::SoakWords;
// tools/make_tools: end modules

pub use chooser::EventKind;
pub use command::Command;
pub use count::Count;
pub use fault::WordsFault;
pub use presets::PresetWords;
pub use profil::{LAST_INDEX, LAST_SET, LAST_THREAD};
pub use regions::EventTexts;
pub use soak::{MOST_ROUNDS, Rounds};
use std::alloc::Global;
pub use streams::StreamNames;
pub use texts::Texts;
use tool::read_tool;
pub use workers::{MOST_WORKERS, Workers};

/// What a program's words after its own name ask for: the first is a tool's name, the others are that tool's words.
///
/// Each tool's words are those of a simple command of `clap`. A name that is not a tool's, words outside the tool's form,
/// and a request for help or for the version are bad words.
pub fn read_words(alloc: Global, words: &[String]) -> Result<Command, WordsFault>
    ensures { Answers result (form (map string_bytes words.now)) }
{
    match tool_in(words) {
        // tools/make_tools: begin rows
        "papi_run" => Ok(Command::Run(read_tool(alloc, words)?)),
        "papi_profil" => Ok(Command::Profil(read_tool(alloc, words)?)),
        "papi_regions" => Ok(Command::Regions(read_tool(alloc, words)?)),
        "papi_avail" => Ok(Command::Avail(read_tool(alloc, words)?)),
        "papi_native_avail" => Ok(Command::NativeAvail(read_tool(alloc, words)?)),
        "papi_event_chooser" => Ok(Command::EventChooser(read_tool(alloc, words)?)),
        "papi_decode" => Ok(Command::Decode(read_tool(alloc, words)?)),
        "papi_encode" => Ok(Command::Encode(read_tool(alloc, words)?)),
        "papi_soak" => Ok(Command::Soak(read_tool(alloc, words)?)),
        // tools/make_tools: end rows
        _ => Err(WordsFault::BadWords),
    }
}

// The tool that the words name, or an empty text if there are no words.
fn tool_in(words: &[String]) -> &str
    ensures { result.now ≡ tool_of (map string_bytes words.now) }
{
    match words.first() {
        Some(tool) => tool.as_str(),
        None => "",
    }
}
