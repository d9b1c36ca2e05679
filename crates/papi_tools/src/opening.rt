//! Files by name: opened, or read whole.
ghost use Rattle.std.specs.Prelude.{◌≡◌, ◌≤◌, IfOk, length};
ghost use Rattle.std.specs.Option.{option_map};
ghost use Rattle.papi_base.specs.Outside as outside;
ghost use Rattle.papi_tools.specs.Looking.{LookedBy, out_with};
ghost use Rattle.papi_tools.specs.Openings.{CanGive, Is, Leads, file_bytes, opened, tape_under};

use crate::{Refusal, Stop};
use papi_base::{Bytes, Files, OpenFail, Text, WholeFault, read_whole};
use std::alloc::Global;

/// Opens a file, or says why not. The source has no faults.
pub fn open_named<F: Files>(alloc: Global, files: &mut F, name: &str) -> Result<F::S, Stop>
    ensures found { Leads (λ source tape. CanGive (F.S.tape source) tape) result
        (λ openings. tape_under openings name.now) opened
        (F.held files.old) (F.held files.new) }
    ensures fresh { IfOk result (λ source. F.S.faults source ≡ 0) }
    ensures looked { LookedBy F.held F.misses F.faults F.lent result
        (out_with (λ _. 1) result) files.old files.new }
    ensures held { F.held files.new ≡ option_map outside.opened (F.held files.old) }
{
    let answer = files.open_source(name);
    match answer {
        Ok(source) => Ok(source),
        Err(OpenFail::Absent) => Err(Stop::Refused(Refusal::NoSuchFile(Text::copy_of(
            alloc, name,
        )?))),
        Err(OpenFail::Failed) => Err(Stop::Refused(Refusal::CannotRead(Text::copy_of(
            alloc, name,
        )?))),
        Err(OpenFail::Memory) => Err(Stop::Memory),
    }
}

/// Opens a file of at most `limit` bytes, reads it whole and closes it, or says why not.
pub fn whole_file<F: Files>(
    alloc: Global,
    files: &mut F,
    name: &str,
    limit: usize,
) -> Result<Bytes, Stop>
    ensures found { Leads Is result (λ openings. file_bytes limit openings name.now) opened
        (F.held files.old) (F.held files.new) }
    ensures small { IfOk result (λ bytes. length bytes ≤ limit) }
    ensures looked { LookedBy F.held F.misses F.faults F.lent result 0 files.old files.new }
    ensures held { F.held files.new ≡ option_map outside.opened (F.held files.old) }
{
    let mut source = open_named(alloc, files, name)?;
    let answer = read_whole(alloc, &mut source, limit);
    files.close_source(source);
    match answer {
        Ok(bytes) => Ok(Bytes::new(bytes)),
        Err(WholeFault::TooLarge) => Err(Stop::Refused(Refusal::TooLarge(Text::copy_of(
            alloc, name,
        )?))),
        Err(WholeFault::Failed) => Err(Stop::Refused(Refusal::CannotRead(Text::copy_of(
            alloc, name,
        )?))),
        Err(WholeFault::Memory) => Err(Stop::Memory),
    }
}
