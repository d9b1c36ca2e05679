//! Why a call ends before its output.
ghost use Rattle.std.specs.Prelude.{◌≡◌, IfOk, string_bytes};
ghost use Rattle.papi_tools.specs.ErrorLines.{line_of, outcome_of, place_of, words_of};
ghost use Rattle.papi_tools.specs.declared.refusal.Stop.TheVariants as stop;

use crate::Outcome;
use event_tables::{RowCause, cause_text as row_text};
use papi_base::Text;
use preset_csv::{PresetCause, cause_text as preset_text};
use profil_hist::{MapCause, cause_text as map_text};
use region_report::{RegionCause, cause_text as region_text};
use script_lines::{ScriptCause, cause_text as line_text};
use std::alloc::{AllocError, AllocFailed, Global};

/// What is wrong with a row or a line of a file.
#[derive(Clone, Copy)]
pub enum FileCause {
    /// A row of a unit file.
    Row(RowCause),
    /// A row of a preset file.
    PresetRow(PresetCause),
    /// A row of a map of program counters.
    MapRow(MapCause),
    /// A line of a script.
    Line(ScriptCause),
    /// A line of a region script.
    RegionLine(RegionCause),
}

impl FileCause {
    // What such a file has: rows or lines.
    fn place(self) -> &'static str
        ensures { result.now ≡ place_of self }
    {
        match self {
            FileCause::Line(_) | FileCause::RegionLine(_) => "line",
            _ => "row",
        }
    }

    fn words(self) -> &'static str
        ensures { result.now ≡ words_of self }
    {
        match self {
            FileCause::Row(cause) => row_text(cause),
            FileCause::PresetRow(cause) => preset_text(cause),
            FileCause::MapRow(cause) => map_text(cause),
            FileCause::Line(cause) => line_text(cause),
            FileCause::RegionLine(cause) => region_text(cause),
        }
    }
}

/// Why a call is refused.
#[derive(Drop)]
pub enum Refusal {
    /// The words are outside every tool's form.
    BadWords,
    /// No file has this name.
    NoSuchFile(Text),
    /// The file of this name could not be opened or read.
    CannotRead(Text),
    /// The file of this name passes its size.
    TooLarge(Text),
    /// A row or a line of the file of this name, counted from 1.
    Faulty {
        name: Text,
        number: u64,
        cause: FileCause,
    },
}

impl Refusal {
    /// How a call ends that is refused so.
    pub fn outcome(&self) -> Outcome
        ensures { result ≡ outcome_of self.now }
    {
        match self {
            Refusal::CannotRead(_) => Outcome::ReadFault,
            _ => Outcome::Refused,
        }
    }

    /// The line on standard error, with its newline.
    pub fn line(&self, alloc: Global) -> Result<String, AllocError>
        ensures { IfOk result (λ line. string_bytes line ≡ line_of self.now) }
    {
        match self {
            Refusal::BadWords => format!(in alloc; "papi: bad words\n"),
            Refusal::NoSuchFile(name) => format!(in alloc; "papi: no such file: {name}\n"),
            Refusal::CannotRead(name) => format!(in alloc; "papi: cannot read: {name}\n"),
            Refusal::TooLarge(name) => format!(in alloc; "papi: {name}: too large\n"),
            Refusal::Faulty {
                name,
                number,
                cause,
            } => {
                let place = cause.place();
                let words = cause.words();
                format!(in alloc; "papi: {name}: {place} {number}: {words}\n")
            }
        }
    }
}

/// The end of a call before its output: a refusal, or memory ran out.
#[derive(Drop)]
pub enum Stop {
    Refused(Refusal),
    Memory,
}

impl From<AllocError> for Stop {
    ghost from_gives = { λ _ e. e ≡ stop.Memory };

    fn from(_: AllocError) -> Self {
        Stop::Memory
    }
}

impl<T: Drop> From<AllocFailed<T>> for Stop {
    ghost from_gives = { λ _ e. e ≡ stop.Memory };

    fn from(_: AllocFailed<T>) -> Self {
        Stop::Memory
    }
}
