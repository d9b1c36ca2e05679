//! A whole region script.

ghost use Rattle.std.specs.Prelude.{◌≡◌, ◌<◌, ◌^◌};
ghost use Rattle.region_report.specs.Lines as Lines;
ghost use Rattle.region_report.specs.Lines.{is_reading};
ghost use Rattle.region_report.specs.Kept.{IsRegions};
ghost use Rattle.region_report.specs.Scripts.{ReadsRegions};

use crate::fault::{RegionCause, RegionFault};
use crate::line::region_line;
use crate::opened::OpenRegions;
use papi_base::Text;
use script_lines::{cut_line, fault_at, is_skipped};
use std::alloc::Global;
use std::marker::Model;

/// How many call lines a region script has at most.
pub const MOST_LINES: usize = 90_000;

/// How many regions of a thread are open at most.
pub const MOST_OPEN_REGIONS: usize = 32;

/// A call of a line of a region script.
#[derive(Drop)]
pub enum RegionCall {
    /// Begins a region.
    Begin { name: Text },
    /// Reads the innermost open region, which goes on.
    Read { name: Text },
    /// Ends the innermost open region.
    End { name: Text },
    /// Consumes n occurrences.
    Run { count: u32 },
}

/// A line that asks a call of a thread, with its number in the script, from 1. The counters are read at each line that begins, reads or
/// ends a region; at one that reads or ends a region `begun` is the number of the reading, from 0, at which that region began.
#[derive(Drop)]
pub struct RegionLine {
    pub line: u64,
    pub thread: u32,
    pub call: RegionCall,
    pub begun: usize,
}

impl RegionLine {
    /// Whether the counters are read at this line.
    pub fn is_reading(&self) -> bool
        ensures { result ≡ is_reading self.now }
    {
        !matches!(&self.call, RegionCall::Run { count: _ })
    }
}

// How many readings there are after a line.
fn after_reading(readings: usize, line: &RegionLine) -> usize
    requires { readings < 2 ^ 63 }
    ensures { result ≡ Lines.after_reading readings line.now }
{
    if line.is_reading() {
        readings + 1
    } else {
        readings
    }
}

/// The call lines of a region script in order, which contracts see as their list. There are at most [`MOST_LINES`], each of a thread
/// below `THREADS`.
#[derive(Drop)]
pub struct Regions {
    lines: Vec<RegionLine>,
}

impl Model for Regions {
    ghost use Rattle.std.specs.Prelude.{List};
    ghost use Rattle.region_report.specs.declared.regions.RegionLine.{RegionLine};
    ghost use Rattle.region_report.specs.Kept.{IsRegions};

    ghost Value = { List RegionLine };

    ghost view = { λ r. r.lines.items };

    ghost invariant = { λ r. IsRegions r.lines.items };
}

impl Regions {
    /// The call lines.
    pub fn lines(&self) -> &[RegionLine]
        ensures lines { result.now ≡ self.now }
        ensures kept { IsRegions self.now }
    {
        self.lines.as_slice()
    }
}

/// The region script of some bytes, or its first line that has a fault, with the first cause that it has.
///
/// Lines are those of a script of calls: they end in a newline, the last one need not; a carriage return before a newline is dropped.
/// Empty lines and lines that begin with `#` are passed over, and numbered. If a region is open at the end, the fault is at the line
/// after the last.
pub fn read_regions(alloc: Global, bytes: &[u8]) -> Result<Regions, RegionFault>
    ensures { ReadsRegions result bytes.now }
{
    let mut lines = Vec::new(alloc);
    let mut opens = OpenRegions::none(alloc)?;
    let mut readings = 0;
    let mut rest = bytes;
    let mut number = 0;
    while rest.len() > 0 {
        let (line, after) = cut_line(rest);
        rest = after;
        number += 1;
        if !is_skipped(line) {
            match region_line(alloc, number, lines.len(), readings, &opens, line) {
                Ok(line) => {
                    opens.take(alloc, &line)?;
                    readings = after_reading(readings, &line);
                    lines.push(line)?;
                }
                Err(refusal) => return Err(fault_at(number, refusal)),
            }
        }
    }
    if !opens.all_ended() {
        return Err(RegionFault::Line {
            line: number + 1,
            cause: RegionCause::NotEnded,
        });
    }
    Ok(Regions { lines })
}
