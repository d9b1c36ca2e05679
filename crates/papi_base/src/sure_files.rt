//! Files in memory that never fail.
ghost use Rattle.std.specs.Prelude.{◌≡◌, ◌<◌, [], Some};
ghost use Rattle.papi_base.specs.Entries.{sure_entries};
ghost use Rattle.papi_base.specs.Outside.{tape_of, IsSourceOf};

use crate::{Files, OpenFail, Source, SureSource};
use std::alloc::Global;

/// Files in memory of which no opening fails and each ends well. The first file of a name counts.
#[derive(Drop)]
pub struct SureFiles {
    alloc: Global,
    tapes: Vec<(String, Vec<u8>)>,
    largest: usize,
    misses: u64,
    lent: u64,
    ghost some: { 0 < largest },
}

impl SureFiles {
    /// Files with these contents, each given in pieces of at most `largest` bytes.
    pub fn new(alloc: Global, tapes: Vec<(String, Vec<u8>)>, largest: usize) -> Self
        requires { 0 < largest }
        ensures held { ⟦<SureFiles as Files>⟧.held result
            ≡ Some (record { tapes = sure_entries tapes.items; refused = [] }) }
        ensures misses { ⟦<SureFiles as Files>⟧.misses result ≡ 0 }
        ensures lent { ⟦<SureFiles as Files>⟧.lent result ≡ 0 }
    {
        SureFiles {
            alloc,
            tapes,
            largest,
            misses: 0,
            lent: 0,
        }
    }
}

// The source of a name.
fn sure_source_at(
    alloc: Global,
    tapes: &[(String, Vec<u8>)],
    name: &str,
    largest: usize,
) -> Result<SureSource, OpenFail>
    requires { 0 < largest }
    ensures { IsSourceOf ⟦<SureSource as Source>⟧.tape result
        (tape_of (sure_entries tapes.now) name.now) }
{
    for (held, bytes) in tapes {
        if held.as_str() == name {
            return match bytes.to_vec(alloc) {
                Ok(copy) => Ok(SureSource::new(copy, largest)),
                Err(_) => Err(OpenFail::Memory),
            };
        }
    }
    Err(OpenFail::Absent)
}

impl Files for SureFiles {
    type S = SureSource;

    ghost misses = { λ f. f.misses };

    ghost faults = { λ _. 0 };

    ghost lent = { λ f. f.lent };

    ghost held = { λ f. Some (record { tapes = sure_entries f.tapes.items; refused = [] }) };

    fn open_source(&mut self, name: &str) -> Result<SureSource, OpenFail> {
        let answer = sure_source_at(self.alloc, &self.tapes, name, self.largest);
        match &answer {
            Ok(_) => match self.lent.checked_add(1) {
                Some(lent) => self.lent = lent,
                None => return Err(OpenFail::Memory),
            },
            Err(OpenFail::Absent) => self.misses = self.misses.saturating_add(1),
            Err(_) => {}
        }
        answer
    }

    fn close_source(&mut self, _source: SureSource) {
        self.lent = self.lent.saturating_sub(1);
    }
}
