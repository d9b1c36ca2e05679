//! The regions that are open while a region script is read.

ghost use Rattle.std.specs.Prelude.{◌≡◌, ◌<◌, ◌≤◌, ◌-◌, ◌∷◌, ◌++◌, [], map};
ghost use Rattle.std.specs.Prelude.{replicate, length, take, IfOk, OnOk, slice_index_or, vec_len, slice_get, option_map};
ghost use Rattle.papi_base.specs.declared.limits.TheConstants.{THREADS};
ghost use Rattle.region_report.specs.Lines as Lines;
ghost use Rattle.region_report.specs.Lines.{Open, after_line, open_of, innermost};
ghost use Rattle.region_report.specs.Opens.{open_text, stack_text, stacks_text};
ghost use Rattle.region_report.specs.Scripts as Scripts;

use crate::regions::{RegionCall, RegionLine};
use papi_base::{THREADS, Text};
use std::alloc::{AllocError, Global};
use std::marker::Model;

// An open region: its name, and which reading is that of its begin.
#[derive(Drop)]
pub(crate) struct OpenRegion {
    pub(crate) name: Text,
    pub(crate) begun: usize,
}

// The open regions of each thread, the innermost last. Contracts see the list of the threads' lists.
#[derive(Drop)]
pub(crate) struct OpenRegions {
    threads: Vec<Vec<OpenRegion>>,
}

impl Model for OpenRegions {
    ghost use Rattle.std.specs.Prelude.{◌≡◌, List, length};
    ghost use Rattle.papi_base.specs.declared.limits.TheConstants.{THREADS};
    ghost use Rattle.region_report.specs.Lines.{Open};
    ghost use Rattle.region_report.specs.Opens.{stacks_text};

    ghost Value = { List (List Open) };

    ghost view = { λ o. stacks_text o.threads.items };

    ghost invariant = { λ o. length o.threads.items ≡ THREADS };
}

// No open regions yet, for each thread.
#[tactic(auto, using(std::proofs::lemmas::Grind::common_steps))]
fn none_yet(alloc: Global) -> Result<Vec<Vec<OpenRegion>>, AllocError>
    ensures none { IfOk result (λ threads. stacks_text threads.items ≡ Scripts.none_open) }
    ensures all { IfOk result (λ threads. vec_len threads ≡ THREADS) }
{
    let mut threads = Vec::new(alloc);
    for _thread in 0..THREADS {
        threads.push(Vec::new(alloc))?;
    }
    Ok(threads)
}

// The regions of a thread after a call of this line.
fn take_call(
    alloc: Global,
    opens: &mut Vec<OpenRegion>,
    line: &RegionLine,
) -> Result<(), AllocError>
    ensures { OnOk result (stack_text opens.new.items
        ≡ Lines.after_call (stack_text opens.old.items) line.now line.now.call) }
{
    match &line.call {
        RegionCall::Begin { name } => {
            let name = Text::copy_of(alloc, name.as_str())?;
            opens.push(OpenRegion {
                name,
                begun: line.begun,
            })?;
        }
        RegionCall::End { name: _ } => {
            let _ended = opens.pop();
        }
        RegionCall::Read { name: _ } => {}
        RegionCall::Run { count: _ } => {}
    }
    Ok(())
}

// The regions of all threads after a line.
fn take_line(
    alloc: Global,
    threads: &mut Vec<Vec<OpenRegion>>,
    line: &RegionLine,
) -> Result<(), AllocError>
    requires { line.now.thread < vec_len threads.old }
    ensures after { OnOk result
        (stacks_text threads.new.items ≡ after_line (stacks_text threads.old.items) line.now) }
    ensures all { length threads.new.items ≡ length threads.old.items }
{
    take_call(alloc, &mut threads[line.thread as usize], line)
}

// Whether no region is open.
fn are_ended(threads: &[Vec<OpenRegion>]) -> bool
    ensures { result ≡ Scripts.all_ended (stacks_text threads.now) }
{
    for opens in threads {
        if opens.len() > 0 {
            return false;
        }
    }
    true
}

impl OpenRegions {
    // No region is open.
    pub(crate) fn none(alloc: Global) -> Result<OpenRegions, AllocError>
        ensures { IfOk result (λ none. none ≡ Scripts.none_open) }
    {
        Ok(OpenRegions {
            threads: none_yet(alloc)?,
        })
    }

    // How many regions of a thread are open.
    pub(crate) fn count(&self, thread: u32) -> usize
        requires { thread < THREADS }
        ensures { result ≡ length (open_of self.now thread) }
    {
        self.threads[thread as usize].len()
    }

    // The innermost open region of a thread.
    pub(crate) fn innermost(&self, thread: u32) -> Option<&OpenRegion>
        requires { thread < THREADS }
        ensures { option_map (λ o. open_text o.now) result ≡ innermost (open_of self.now thread) }
    {
        self.threads[thread as usize].last()
    }

    // The regions that are open after a line.
    pub(crate) fn take(&mut self, alloc: Global, line: &RegionLine) -> Result<(), AllocError>
        requires { line.now.thread < THREADS }
        ensures { OnOk result (self.new ≡ after_line self.old line.now) }
    {
        take_line(alloc, &mut self.threads, line)
    }

    // Whether no region is open.
    pub(crate) fn all_ended(&self) -> bool
        ensures { result ≡ Scripts.all_ended self.now }
    {
        are_ended(self.threads.as_slice())
    }
}
