//! The unit: what is programmed, what an occurrence adds, and which counters carry (PAPI_overflow(3): after a carry a
//! register is loaded again so that it carries after the threshold).
ghost use Rattle.std.specs.Prelude.{◌≡◌, ◌+◌, ◌-◌, ◌^◌, ◌<◌, ◌≤◌, ◌==◌, if◌then◌else◌, length, min, nat_le, slice_index, slice_set, replicate, None, Some};
ghost use Rattle.std.specs.Option.{option_copied, option_map};
ghost use Rattle.papi_base.specs.Widths.{AreWidths};
ghost use Rattle.papi_base.specs.declared.limits.TheConstants.{LEAST_WIDTH, MOST_COUNTERS, MOST_WIDTH};
ghost use Rattle.counter_unit.specs.Selects.{AreAdmitted, ArePlain};
ghost use Rattle.counter_unit.specs.Counting.{IsThreshold, beginning, period, at_place, begun, begun_again, wrapped};
ghost use Rattle.counter_unit.specs.Counting.{Steps, all_begun_again, all_moved, all_carries, bits_of, count_on};
ghost use Rattle.counter_unit.specs.Units.{IsBegun, base_after, beginning_at, value_after};

use crate::modes::weight_at;
use crate::registers::Register;
use crate::selects::{Selects, has_bit, with_rare_bit};
use papi_base::{CompShape, Domain, MOST_COUNTERS, Native, Occ};
use std::marker::Model;

/// The counters of one component. Contracts see for each its width in bits, and what is programmed on it.
#[derive(Drop)]
pub struct Unit {
    shape: CompShape,
    /// What is programmed on each counter, its register at its beginning, and nothing beyond them.
    registers: [Option<Register>; MOST_COUNTERS],
    /// The values of each counter's register, and one more than the greatest.
    rooms: [u64; MOST_COUNTERS],
    /// Each counter's register now, and what is to be added for its count, modulo 2^64: what its carries took less its
    /// beginning. 0 if nothing is programmed.
    values: [u64; MOST_COUNTERS],
    bases: [u64; MOST_COUNTERS],
    /// Both as they begin.
    first_values: [u64; MOST_COUNTERS],
    first_bases: [u64; MOST_COUNTERS],
    selects: Selects,
}

impl Model for Unit {
    ghost use Rattle.std.specs.Prelude.{length, take};
    ghost use Rattle.counter_unit.specs.Counting.{UnitView};
    ghost use Rattle.counter_unit.specs.Units.{IsUnit, places_now};

    ghost Value = { UnitView };

    ghost view = { λ u. record {
      widths = u.shape;
      registers = places_now (take (length u.shape) u.registers) u.values u.bases;
    } };

    ghost invariant = { λ u. IsUnit u.shape u.registers u.rooms u.values u.bases
        u.first_values u.first_bases u.selects };
}

/// The values of a register of this width, and one more than the greatest.
#[inline(always)]
fn room(width: u8) -> u64
    requires { width ≤ MOST_WIDTH }
    ensures value { result ≡ 2 ^ width }
    ensures least { LEAST_WIDTH ≤ width → 2 ^ LEAST_WIDTH ≤ result }
{
    1 << width
}

/// How much is counted from one carry to the next.
#[inline(always)]
fn period_of(width: u8, threshold: u64) -> u64
    requires { width ≤ MOST_WIDTH }
    ensures value { result ≡ period width threshold }
{
    if threshold == 0 {
        room(width)
    } else {
        threshold
    }
}

/// Where a register of this width begins.
#[inline(always)]
fn beginning_of(width: u8, threshold: u64) -> u64
    requires width { width ≤ MOST_WIDTH }
    requires threshold { IsThreshold width threshold }
    ensures { result ≡ beginning width threshold }
{
    room(width) - period_of(width, threshold)
}

/// Adds an amount to a register that has this room and begins here, and tells whether it carried.
#[inline(always)]
fn add(value: &mut u64, base: &mut u64, first: u64, room: u64, more: u8) -> bool
    requires small { room ≤ 2 ^ MOST_WIDTH }
    requires begins { first ≤ room }
    requires below { value.old < room }
    ensures value { value.new ≡ value_after room first value.old more }
    ensures base { base.new ≡ base_after room first value.old base.old more }
    ensures carried { result ≡ nat_le room (value.old + more) }
{
    let sum = *value + u64::from(more);
    let carried = room <= sum;
    if carried {
        carry(value, base, room - first, sum);
    } else {
        *value = sum;
    }
    carried
}

/// A register that would have this sum starts again, and its period goes to its base.
#[cold]
#[inline(never)]
fn carry(value: &mut u64, base: &mut u64, period: u64, sum: u64)
    requires past { period ≤ sum }
    ensures value { value.new ≡ sum - period }
    ensures base { base.new ≡ wrapped (base.old + period) }
{
    *value = sum - period;
    *base = base.wrapping_add(period);
}

/// The first of n counters as a bit if an occurrence can move none, and no bit else.
#[inline(always)]
fn first_if_none(moved: u32, counters: u32) -> u32
    ensures { result ≡ (if moved == 0 then min counters 1 else 0) }
{
    u32::from((moved == 0) & (counters != 0))
}

/// The counters to look at if an occurrence can move these of n: the first one if it can move none.
// So there is mostly one turn, whether or not the occurrence counts, which a processor cannot foresee. It is computed from
// bits, since a compiler may make a branch of a choice.
#[inline(always)]
#[tactic(auto, using(crate::proofs::Places::first_added))]
fn one_at_least(moved: u32, counters: u32) -> u32
    ensures { result ≡ (if moved == 0 then min counters 1 else moved) }
{
    moved | first_if_none(moved, counters)
}

/// What is added to a counter that counts each amount as it is: nothing if the occurrence can move no counter.
#[inline(always)]
fn amount_of(moved: u32, o: &Occ) -> u8
    ensures { result ≡ (if moved == 0 then 0 else o.now.amount) }
{
    if moved == 0 { 0 } else { o.amount }
}

/// Where the register begins, or 0 if nothing is programmed.
fn first_of(place: &Option<Register>) -> u64
    ensures { result ≡ beginning_at place.now }
{
    match place {
        Some(register) => register.value,
        None => 0,
    }
}

impl Unit {
    ghost use Rattle.std.specs.Prelude.{IfSome};

    /// Nothing is programmed.
    pub fn new(shape: &CompShape) -> Unit
        ensures unit { result ≡ record {
          widths = shape.now;
          registers = replicate (length shape.now) None;
        } }
        ensures widths { AreWidths shape.now }
        ensures few { length shape.now ≤ MOST_COUNTERS }
    {
        let mut rooms = [0; MOST_COUNTERS];
        let counters = shape.counters();
        for c in 0..counters {
            rooms[c as usize] = room(shape.width(c));
        }
        Unit {
            shape: shape.copy(),
            registers: [None; MOST_COUNTERS],
            rooms,
            values: [0; MOST_COUNTERS],
            bases: [0; MOST_COUNTERS],
            first_values: [0; MOST_COUNTERS],
            first_bases: [0; MOST_COUNTERS],
            selects: Selects::none(),
        }
    }

    /// Programs a counter with a native event, a domain and a threshold, 0 for none. Its register is at its beginning: 0,
    /// or so far below its end as the threshold.
    pub fn program(&mut self, c: u32, n: Native, d: Domain, threshold: u64)
        requires exists { c < length self.old.widths }
        requires threshold { IsThreshold (slice_index self.old.widths c) threshold }
        ensures { let place = Some (begun (slice_index self.old.widths c) n d threshold)
            in self.new ≡ record self.old { registers = slice_set self.old.registers c place } }
    {
        let width = self.shape.width(c);
        let value = beginning_of(width, threshold);
        let place = Some(Register {
            native: n,
            domain: d,
            threshold,
            value,
            bank: 0,
        });
        self.put(c, place);
    }

    /// Another register at its beginning, or none, is on the counter. The tables stay if it counts what was counted there.
    fn put(&mut self, c: u32, place: Option<Register>)
        requires exists { c < length self.old.widths }
        requires begun { IsBegun (slice_index self.old.widths c) place }
        ensures { self.new ≡ record self.old { registers = slice_set self.old.registers c place } }
    {
        let old = self.registers[c as usize];
        self.selects.put(c, &old, &place);
        self.registers[c as usize] = place;
        let value = first_of(&place);
        let base = 0u64.wrapping_sub(value);
        self.first_values[c as usize] = value;
        self.first_bases[c as usize] = base;
        self.values[c as usize] = value;
        self.bases[c as usize] = base;
    }

    /// Adds to each programmed register what the occurrence counts for it, if `before` came just before it. The result
    /// is the counters that carried, as bits.
    #[inline(always)]
    #[tactic(auto, using(crate::proofs::Steps::plain_by_marks))]
    pub fn step(&mut self, before: Option<&Occ>, o: &Occ) -> u32
        ensures registers { self.new
            ≡ record self.old {
              registers = all_moved (option_copied before.entry) o.now
                  self.old.widths self.old.registers;
            } }
        ensures carries { result
            ≡ bits_of (all_carries (option_copied before.entry) o.now self.old.widths
            self.old.registers) }
    {
        let all = self.selects.at(o);
        let modified = all & self.selects.modified;
        if modified == 0 {
            return self.step_at(all, modified, before, o);
        }
        // A copy, so that the occurrence itself can stay in the processor's registers.
        let copied = *o;
        self.step_modified(all, modified, before, &copied)
    }

    /// The step if some of the counters that the occurrence can move do not count each amount as it is.
    #[cold]
    #[inline(never)]
    fn step_modified(&mut self, all: u32, modified: u32, before: Option<&Occ>, o: &Occ) -> u32
        requires admitted { AreAdmitted o.now self.old.registers all }
        requires plain { ArePlain self.old.registers all modified }
        ensures { Steps (option_copied before.entry) o.now self.old self.new result }
    {
        self.step_at(all, modified, before, o)
    }

    /// The step over the counters that the occurrence can move. All of them but the modified ones count its amount as it is.
    #[inline(always)]
    fn step_at(&mut self, all: u32, modified: u32, before: Option<&Occ>, o: &Occ) -> u32
        requires admitted { AreAdmitted o.now self.old.registers all }
        requires plain { ArePlain self.old.registers all modified }
        ensures { Steps (option_copied before.entry) o.now self.old self.new result }
    {
        // The contract speaks of the amount, which fits 8 bits.
        let _amount = o.amount;
        let amount = amount_of(all, o);
        let mut carry = 0;
        let mut left = one_at_least(all, self.shape.counters());
        while left != 0 {
            let c = left.trailing_zeros();
            left &= !(1 << c);
            let place = &self.registers[c as usize];
            let more = weight_at(place, has_bit(modified, c), amount, before, o);
            let carried = add(
                &mut self.values[c as usize],
                &mut self.bases[c as usize],
                self.first_values[c as usize],
                self.rooms[c as usize],
                more,
            );
            carry = with_rare_bit(carry, c, carried);
        }
        carry
    }

    /// The counter's register, if it is programmed.
    pub fn register(&self, c: u32) -> Option<u64>
        requires exists { c < length self.now.widths }
        ensures value { result ≡ option_map (λ r. r.value) (at_place self.now.registers c) }
        ensures small { IfSome result (λ v. v < 2 ^ MOST_WIDTH) }
    {
        let _width = self.shape.width(c);
        match self.registers[c as usize] {
            Some(_) => Some(self.values[c as usize]),
            None => None,
        }
    }

    /// What the native event on the counter counted since it was programmed or zeroed, modulo 2^64, and 0 if none is.
    #[inline]
    pub fn count(&self, c: u32) -> u64
        requires exists { c < length self.now.widths }
        ensures { result ≡ count_on self.now c }
    {
        self.values[c as usize].wrapping_add(self.bases[c as usize])
    }

    /// All registers begin again.
    pub fn restart(&mut self)
        ensures { self.new ≡ record self.old {
          registers = all_begun_again self.old.widths self.old.registers;
        } }
    {
        self.values = self.first_values;
        self.bases = self.first_bases;
    }

    /// The counter's register begins again, if it is programmed.
    pub fn zero(&mut self, c: u32)
        requires exists { c < length self.old.widths }
        ensures { let again = option_map (begun_again (slice_index self.old.widths c))
            (at_place self.old.registers c)
            in self.new ≡ record self.old { registers = slice_set self.old.registers c again } }
    {
        self.values[c as usize] = self.first_values[c as usize];
        self.bases[c as usize] = self.first_bases[c as usize];
    }

    /// The widths of the counters.
    pub fn shape(&self) -> &CompShape
        ensures { result.now ≡ self.now.widths }
    {
        &self.shape
    }

    /// The counter is no longer programmed.
    pub fn clear(&mut self, c: u32)
        requires exists { c < length self.old.widths }
        ensures { self.new ≡ record self.old { registers = slice_set self.old.registers c None } }
    {
        self.put(c, None);
    }
}
