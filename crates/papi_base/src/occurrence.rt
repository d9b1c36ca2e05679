//! Occurrences, and what they add to a native event's count.
ghost use Rattle.std.specs.Prelude.{◌≡◌, ◌≤◌};
ghost use Rattle.std.specs.Option.{option_copied};
ghost use Rattle.papi_base.specs.LineCauses.{cause_text};
ghost use Rattle.papi_base.specs.Weight.{held, holds, in_mode, is_of, weight_of};

use crate::{Domain, Native};
use bitflags::Flags;

/// What a stream says that occurred: select code and umask of an event, the mode, an amount from 1 to 255, the program
/// counter, and a time stamp in ticks.
#[derive(Clone, Copy, Debug, PartialEq, Eq)]
pub struct Occ {
    pub comp: u8,
    pub select: u8,
    pub umask: u8,
    pub kernel: bool,
    pub amount: u8,
    pub pc: u64,
    pub stamp: u64,
}

/// Why a stream is refused at a line: too long, past the stream's limit, another number of fields, a field out of its
/// form, or a stamp that does not rise.
#[derive(Clone, Copy, Debug, PartialEq, Eq)]
pub enum LineCause {
    Long,
    Size,
    Fields,
    Field,
    Stamp,
}

/// The cause as it is written on the line that names it (docs/FORMATS.md).
pub fn cause_text(cause: LineCause) -> &'static str
    ensures { result.now ≡ cause_text cause }
{
    match cause {
        LineCause::Long => "line too long",
        LineCause::Size => "stream too long",
        LineCause::Fields => "wrong number of fields",
        LineCause::Field => "bad field",
        LineCause::Stamp => "stamp does not rise",
    }
}

/// Whether the occurrence's mode is in the native event's privilege mask, which is the domain if it has none.
#[inline(always)]
fn is_in_mode(n: &Native, d: Domain, o: &Occ) -> bool
    ensures { result ≡ in_mode n.now d o.now }
{
    let bit = if o.kernel { 2 } else { 1 };
    let named = if o.kernel { n.mods.kernel } else { n.mods.user };
    let any = n.mods.user | n.mods.kernel;
    named | (!any & (d.0 & bit != 0))
}

/// Whether the occurrence is of the native event, in a mode in which it counts.
// Each part is tested, with no branch: occurrences come in no order that a processor could foresee.
#[inline(always)]
fn is_of(n: &Native, d: Domain, o: &Occ) -> bool
    ensures { result ≡ is_of n.now d o.now }
{
    let is_event = (n.comp == o.comp as u32) & (n.select == o.select);
    let has_umask = (n.umask == 0) | (n.umask & o.umask != 0);
    is_event & has_umask & is_in_mode(n, d, o)
}

/// Whether the native event's condition holds at the occurrence, by its modifiers and the set's domain.
#[inline(always)]
fn holds_at(n: &Native, d: Domain, o: &Occ) -> bool
    ensures holds { result ≡ holds n.now d o.now }
{
    let reaches = (n.mods.cmask == 0) | ((o.amount >= n.mods.cmask) != n.mods.invert);
    is_of(n, d, o) & reaches
}

/// Whether the native event's condition held at the occurrence before, if there was one.
#[inline(always)]
fn held_at(n: &Native, d: Domain, before: Option<&Occ>) -> bool
    ensures { result ≡ held n.now d (option_copied before.entry) }
{
    match before {
        Some(before) => holds_at(n, d, before),
        None => false,
    }
}

/// What the occurrence adds to the native event's count, if `before` is the one that came just before it.
#[inline(always)]
pub fn weight(n: &Native, d: Domain, before: Option<&Occ>, o: &Occ) -> u8
    ensures weight { result ≡ weight_of n.now d (option_copied before.entry) o.now }
{
    if !n.mods.edge && n.mods.cmask == 0 {
        return if is_of(n, d, o) { o.amount } else { 0 };
    }
    let rises = !n.mods.edge || !held_at(n, d, before);
    u8::from(holds_at(n, d, o) && rises)
}
