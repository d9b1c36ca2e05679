//! Files in memory.
ghost use Rattle.std.specs.Prelude.{◌≡◌, ◌<◌, ◌≤◌, ◌+◌, ◌-◌, ◌==◌, ℕ, List, [], length, map, filter, not, find, Some, IfOk, IsOk, IsErr, option_copied, All};
ghost use Rattle.std.specs.Str.{bytes_eq};
ghost use Rattle.std.specs.List.{list_any};
ghost use Rattle.papi_base.specs.Outside.{renumbered, tape_of, IsSourceOf, Held, Tape};
ghost use Rattle.papi_base.specs.Entries.{entries_of};

use crate::{Ending, Files, MemSource, OpenFail, Source};
use std::alloc::{AllocError, Global};

/// Files in memory, of which some openings fail. The first file of a name counts.
#[derive(Drop)]
pub struct MemFiles {
    alloc: Global,
    tapes: Vec<(String, Vec<u8>, Ending)>,
    largest: usize,
    failing: Vec<u64>,
    misses: u64,
    faults: u64,
    lent: u64,
    ghost some: { 0 < largest },
}

impl MemFiles {
    /// Files with these contents, each given in pieces of at most `largest` bytes. The openings with the numbers
    /// `failing` fail, the first opening having number 1.
    pub fn new(
        alloc: Global,
        tapes: Vec<(String, Vec<u8>, Ending)>,
        largest: usize,
        failing: Vec<u64>,
    ) -> Self
        requires { 0 < largest }
        ensures held { ⟦<MemFiles as Files>⟧.held result
            ≡ Some (record { tapes = entries_of tapes.items; refused = failing.items }) }
        ensures misses { ⟦<MemFiles as Files>⟧.misses result ≡ 0 }
        ensures faults { ⟦<MemFiles as Files>⟧.faults result ≡ 0 }
        ensures lent { ⟦<MemFiles as Files>⟧.lent result ≡ 0 }
    {
        MemFiles {
            alloc,
            tapes,
            largest,
            failing,
            misses: 0,
            faults: 0,
            lent: 0,
        }
    }
}

// Drops the number 1.
fn drop_ones(failing: &mut Vec<u64>)
    ensures { failing.new.items ≡ filter (λ n. not (n == 1)) failing.old.items }
{
    failing.retain(|n| *n != 1);
}

// Takes one from every number.
fn lower(numbers: &mut [u64])
    ensures { numbers.new ≡ map (λ n. n - 1) numbers.old }
{
    for n in numbers.iter_mut() {
        *n = n.saturating_sub(1);
    }
}

// Drops the number 1, and takes one from every other.
fn count_down(failing: &mut Vec<u64>)
    ensures { failing.new.items ≡ renumbered failing.old.items }
{
    drop_ones(failing);
    lower(failing);
}

// Whether the next opening fails.
fn fails_next(failing: &[u64]) -> bool
    ensures { result ≡ list_any (λ n. n == 1) failing.now }
{
    failing.iter().any(|n| *n == 1)
}

// The source of a name.
fn source_at(
    alloc: Global,
    tapes: &[(String, Vec<u8>, Ending)],
    name: &str,
    largest: usize,
) -> Result<MemSource, OpenFail>
    requires { 0 < largest }
    ensures answer { IsSourceOf ⟦<MemSource as Source>⟧.tape result
        (tape_of (entries_of tapes.now) name.now) }
    ensures fresh { IfOk result (λ source. ⟦<MemSource as Source>⟧.faults source ≡ 0) }
{
    for (held, bytes, ending) in tapes {
        if held.as_str() == name {
            return match bytes.to_vec(alloc) {
                Ok(copy) => Ok(MemSource::new(copy, *ending, largest)),
                Err(_) => Err(OpenFail::Memory),
            };
        }
    }
    Err(OpenFail::Absent)
}

impl Files for MemFiles {
    type S = MemSource;

    ghost misses = { λ f. f.misses };

    ghost faults = { λ f. f.faults };

    ghost lent = { λ f. f.lent };

    ghost held = { λ f. Some (record { tapes = entries_of f.tapes.items; refused = f.failing.items }) };

    fn open_source(&mut self, name: &str) -> Result<MemSource, OpenFail> {
        let fails = fails_next(&self.failing);
        count_down(&mut self.failing);
        if fails {
            self.faults = self.faults.saturating_add(1);
            return Err(OpenFail::Failed);
        }
        let answer = source_at(self.alloc, &self.tapes, name, self.largest);
        match &answer {
            Ok(_) => match self.lent.checked_add(1) {
                Some(lent) => self.lent = lent,
                None => return Err(OpenFail::Memory),
            },
            Err(OpenFail::Absent) => self.misses = self.misses.saturating_add(1),
            Err(_) => {}
        }
        answer
    }

    fn close_source(&mut self, source: MemSource) {
        self.lent = self.lent.saturating_sub(1);
        if source.has_failed() {
            self.faults = self.faults.saturating_add(1);
        }
    }
}
