//! Which counters an occurrence can move by its select code, its mode and its umask, so that it looks at these alone.
ghost use Rattle.std.specs.Prelude.{◌≡◌, ℕ, ◌<◌, true, List, None, Option, Some, length, slice_set, replicate};
ghost use Rattle.std.specs.Int.{bit_at};
ghost use Rattle.papi_base.specs.declared.limits.TheConstants.{MOST_COUNTERS};
ghost use Rattle.counter_unit.specs.declared.registers.Register.{Register};
ghost use Rattle.counter_unit.specs.declared.selects.Key.{Key};
ghost use Rattle.counter_unit.specs.Counting.{at_place};
ghost use Rattle.counter_unit.specs.Modes.{is_modified};
ghost use Rattle.counter_unit.specs.Selects.{AreAdmitted, AreSelects, IsCodeOf, IsCompOf, IsMarkedAt, IsRemarked, bit_of, has};

use crate::modes::{counts_kernel, counts_user, is_modified};
use crate::registers::Register;
use papi_base::Occ;

/// How many codes a table has: those of a byte.
pub(crate) const CODES: usize = 256;

/// What the codes of a table are: the select codes of occurrences in user mode, of those in kernel mode, their umasks, or
/// their components.
#[derive(Clone, Copy)]
pub(crate) enum Key {
    User,
    Kernel,
    Umask,
    Comp,
}

/// For each code of each table the counters that an occurrence with this code can move, as bits.
#[derive(Drop)]
pub(crate) struct Selects {
    pub(crate) user: [u32; CODES],
    pub(crate) kernel: [u32; CODES],
    pub(crate) umasks: [u32; CODES],
    pub(crate) comps: [u32; CODES],
    /// The counters that do not count each amount as it is.
    pub(crate) modified: u32,
}

/// Whether occurrences with this code can move what is programmed on a counter.
#[inline(always)]
fn has(key: Key, code: u32, place: &Option<Register>) -> bool
    ensures { result ≡ has key code place.now }
{
    match place {
        None => false,
        Some(register) => {
            let n = &register.native;
            match key {
                Key::User => (u32::from(n.select) == code) & counts_user(n, register.domain),
                Key::Kernel => (u32::from(n.select) == code) & counts_kernel(n, register.domain),
                Key::Umask => (n.umask == 0) | (u32::from(n.umask) & code != 0),
                Key::Comp => n.comp == code,
            }
        }
    }
}

/// Whether the bit of this counter is on.
#[inline(always)]
pub(crate) fn has_bit(mask: u32, c: u32) -> bool
    requires { c < MOST_COUNTERS }
    ensures { bit_of result ≡ bit_at mask c }
{
    mask >> c & 1 == 1
}

/// The bits with that of this counter on or off.
#[inline(always)]
pub(crate) fn with_bit(mask: u32, c: u32, on: bool) -> u32
    requires { c < MOST_COUNTERS }
    ensures here { bit_at result c ≡ bit_of on }
    ensures there { (k : ℕ) → k < MOST_COUNTERS → (k ≡ c → ⊥) → bit_at result k ≡ bit_at mask k }
{
    if on { mask | 1 << c } else { mask & !(1 << c) }
}

/// The bits with that of this counter, which is off and rarely comes on, on or off.
#[inline(always)]
pub(crate) fn with_rare_bit(mask: u32, c: u32, on: bool) -> u32
    requires counter { c < MOST_COUNTERS }
    requires off { bit_at mask c ≡ 0 }
    ensures here { bit_at result c ≡ bit_of on }
    ensures there { (k : ℕ) → k < MOST_COUNTERS → (k ≡ c → ⊥) → bit_at result k ≡ bit_at mask k }
{
    if on { set_bit(mask, c) } else { mask }
}

/// The bits with that of this counter on.
#[cold]
#[inline(never)]
fn set_bit(mask: u32, c: u32) -> u32
    requires { c < MOST_COUNTERS }
    ensures here { bit_at result c ≡ 1 }
    ensures there { (k : ℕ) → k < MOST_COUNTERS → (k ≡ c → ⊥) → bit_at result k ≡ bit_at mask k }
{
    mask | 1 << c
}

/// Sets the bits of a counter to those of what is programmed on it.
fn mark(masks: &mut [u32; CODES], key: Key, c: u32, place: &Option<Register>)
    requires { c < MOST_COUNTERS }
    ensures { IsRemarked key c place.now masks.old masks.new }
{
    for code in 0..CODES as u32 {
        let mask = masks[code as usize];
        masks[code as usize] = with_bit(mask, c, has(key, code, place));
    }
}

/// The select code of what is programmed on a counter, 0 if nothing is.
#[inline(always)]
#[tactic(auto, using(crate::proofs::Tables::code_alone))]
fn code_of(place: &Option<Register>) -> u8
    ensures { IsCodeOf result place.now }
{
    match place {
        Some(register) => register.native.select,
        None => 0,
    }
}

/// The component of what is programmed on a counter, 0 if nothing is. No occurrence has one that is no byte.
#[inline(always)]
#[tactic(auto, using(crate::proofs::Tables::comp_alone))]
fn comp_of(place: &Option<Register>) -> u8
    ensures { IsCompOf result place.now }
{
    match place {
        Some(register) => (register.native.comp % CODES as u32) as u8,
        None => 0,
    }
}

/// Sets the bit of a counter for one code to that of what is programmed on it.
#[inline(always)]
fn mark_at(masks: &mut [u32; CODES], key: Key, select: u8, c: u32, place: &Option<Register>)
    requires { c < MOST_COUNTERS }
    ensures { IsMarkedAt key select c place.now masks.old masks.new }
{
    let mask = masks[select as usize];
    masks[select as usize] = with_bit(mask, c, has(key, u32::from(select), place));
}

/// Whether both have the same component, select code, umask and modes.
fn have_same_codes(old: &Register, new: &Register) -> bool
    ensures { result ≡ true → (key : Key) (code : ℕ)
        → has key code (Some old.now) ≡ has key code (Some new.now) }
{
    let m = &old.native.mods;
    let n = &new.native.mods;
    (old.native.select == new.native.select)
        & (old.native.umask == new.native.umask)
        & (m.user == n.user)
        & (m.kernel == n.kernel)
        & (old.domain.0 == new.domain.0)
        & (old.native.comp == new.native.comp)
}

/// Whether both ask for an edge or none, and for the same least amount.
fn have_same_modifiers(old: &Register, new: &Register) -> bool
    ensures { result ≡ true → is_modified (Some old.now) ≡ is_modified (Some new.now) }
{
    let m = &old.native.mods;
    let n = &new.native.mods;
    (m.edge == n.edge) & (m.cmask == n.cmask)
}

/// Whether occurrences can move both or none, by all that the tables tell of them.
fn are_alike(old: &Option<Register>, new: &Option<Register>) -> bool
    ensures codes { result ≡ true → (key : Key) (code : ℕ)
        → has key code old.now ≡ has key code new.now }
    ensures modified { result ≡ true → is_modified old.now ≡ is_modified new.now }
{
    match (old, new) {
        (Some(old), Some(new)) => have_same_codes(old, new) & have_same_modifiers(old, new),
        _ => false,
    }
}

impl Selects {
    /// No counter is programmed.
    pub(crate) fn none() -> Selects
        ensures { (len : ℕ) → AreSelects result (replicate len None) }
    {
        Selects {
            user: [0; CODES],
            kernel: [0; CODES],
            umasks: [0; CODES],
            comps: [0; CODES],
            modified: 0,
        }
    }

    /// The counters that the occurrence can move.
    #[inline(always)]
    pub(crate) fn at(&self, o: &Occ) -> u32
        ensures { (registers : List (Option Register))
            → AreSelects self.now registers → AreAdmitted o.now registers result }
    {
        let user = self.user[o.select as usize];
        let kernel = self.kernel[o.select as usize];
        let coded = if o.kernel { kernel } else { user };
        self.comps[o.comp as usize] & coded & self.umasks[o.umask as usize]
    }

    /// Another place, or none, is programmed on a counter, in place of this one.
    pub(crate) fn put(&mut self, c: u32, old: &Option<Register>, place: &Option<Register>)
        requires { c < MOST_COUNTERS }
        ensures { (registers : List (Option Register))
            → c < length registers → at_place registers c ≡ old.now → AreSelects self.old registers
            → AreSelects self.new (slice_set registers c place.now) }
    {
        if are_alike(old, place) {
            return;
        }
        let (was, is) = (code_of(old), code_of(place));
        mark_at(&mut self.user, Key::User, was, c, place);
        mark_at(&mut self.user, Key::User, is, c, place);
        mark_at(&mut self.kernel, Key::Kernel, was, c, place);
        mark_at(&mut self.kernel, Key::Kernel, is, c, place);
        mark(&mut self.umasks, Key::Umask, c, place);
        mark_at(&mut self.comps, Key::Comp, comp_of(old), c, place);
        mark_at(&mut self.comps, Key::Comp, comp_of(place), c, place);
        self.modified = with_bit(self.modified, c, is_modified(place));
    }
}
