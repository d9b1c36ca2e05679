//! The files of a tool that names none.
use papi_base::{Files, OpenFail, SureSource};

/// Files of which there are none: no name is held.
#[derive(Drop)]
pub struct NoFiles;

impl Files for NoFiles {
    ghost use Rattle.std.specs.Prelude.{◌-◌, ◌^◌, [], Some};

    type S = SureSource;

    // It stands still at its last value.
    ghost misses = { λ _. 2 ^ 64 - 1 };

    ghost faults = { λ _. 0 };

    ghost lent = { λ _. 0 };

    ghost held = { λ _. Some (record { tapes = []; refused = [] }) };

    fn open_source(&mut self, _name: &str) -> Result<SureSource, OpenFail> {
        Err(OpenFail::Absent)
    }

    fn close_source(&mut self, _source: SureSource) {}
}
