//! The sets of one thread.
ghost use Rattle.std.specs.Prelude.{◌≡◌, ◌+◌, ◌<◌, ◌≤◌, [], IfOk, List, Some, map};
ghost use Rattle.papi_base.specs.Streams.{Mark};
ghost use Rattle.papi_base.specs.declared.occurrence.Occ.{Occ};
ghost use Rattle.papi_base.specs.declared.limits.TheConstants.{LAST_STAMP, MOST_OCCURRENCES};
ghost use Rattle.postfix_rules.specs.Fitting.{BookFits};
ghost use Rattle.postfix_rules.specs.Presets.{Book};
ghost use Rattle.session_model.specs.Account.{Account, opening, time_after};
ghost use Rattle.session_model.specs.Thresholds.{note, notes_at};
ghost use Rattle.thread_slots.specs.Units.{empty_unit};
ghost use Rattle.session_model.specs.Fitness.{IsShape};

use crate::running_sets::RunningSets;
use counter_unit::Unit;
use papi_base::{LAST_STAMP, MOST_COMPONENTS, MOST_OCCURRENCES, Occ, Shape};
use std::alloc::{AllocError, Global};
use std::marker::Model;
use thread_slots::{Slot, Taken, count_all, empty_places};

/// The event sets of one thread, and the units on which they count. A core knows nothing of streams and handlers.
///
/// No call takes memory but `new`.
#[derive(Drop)]
pub struct Core {
    thread: u32,
    pub(crate) registered: bool,
    pub(crate) shape: Shape,
    pub(crate) slots: Vec<Option<Slot>>,
    pub(crate) units: Vec<Unit>,
    pub(crate) running: RunningSets,
    taken: u32,
    last: Option<Occ>,
}

impl Model for Core {
    ghost use Rattle.thread_core.specs.CoreView.{CoreView, core_of};
    ghost use Rattle.thread_core.specs.Running.{AreKnown};
    ghost use Rattle.thread_core.specs.Stands.{IsBacked};

    ghost Value = { CoreView };

    ghost view = { λ c. core_of c.thread c.registered c.shape c.slots.items c.units.items c.taken c.last };

    ghost invariant = { λ c. IsBacked (core_of c.thread c.registered c.shape c.slots.items c.units.items c.taken c.last) × AreKnown c.running c.slots.items };
}

/// A unit for each component, on which nothing is programmed.
fn empty_units(alloc: Global, shape: &Shape) -> Result<Vec<Unit>, AllocError>
    ensures units { IfOk result (λ units. units.items ≡ map empty_unit shape.now) }
    ensures shape { IfOk result (λ units. IsShape shape.now) }
{
    let mut units = Vec::with_capacity(alloc, MOST_COMPONENTS)?;
    for comp in 0..shape.comps() {
        units.push_reserved(Unit::new(shape.comp(comp)));
    }
    Ok(units)
}

impl Core {
    ghost use Rattle.thread_core.specs.CoreView.{opening_core};
    ghost use Rattle.thread_core.specs.Stands.{AgreesWith, CoreStands, consumed, next_stamp};

    /// A core without sets, for units of this shape. It takes the memory for all sets.
    pub fn new(alloc: Global, thread: u32, shape: Shape) -> Result<Core, AllocError>
        ensures core { IfOk result (λ core. core ≡ opening_core thread shape) }
        ensures stands { (book : Book) (rest : List Occ) (mark : Mark)
            → IfOk result (λ core. CoreStands book core (opening thread rest mark)) }
        ensures agrees { (book : Book) → BookFits shape book → IfOk result (AgreesWith book) }
    {
        let slots = empty_places(alloc)?;
        let units = empty_units(alloc, &shape)?;
        Ok(Core {
            thread,
            registered: false,
            shape,
            slots,
            units,
            running: RunningSets::new(),
            taken: 0,
            last: None,
        })
    }

    /// The thread's number.
    pub fn thread(&self) -> u32
        ensures { result ≡ self.now.thread }
    {
        self.thread
    }

    /// The time in ticks, which is one after the last occurrence and 0 before the first.
    pub(crate) fn time(&self) -> u64
        requires { time_after self.now.last ≤ LAST_STAMP + 1 }
        ensures { result ≡ time_after self.now.last }
    {
        match &self.last {
            Some(o) => o.stamp + 1,
            None => 0,
        }
    }

    /// The stamp of an occurrence that comes now, if the thread can take one more.
    #[inline(always)]
    pub fn next_stamp(&self) -> Option<u64>
        ensures { result ≡ next_stamp self.now }
    {
        if u64::from(self.taken) >= MOST_OCCURRENCES {
            return None;
        }
        let now = self.time();
        if now > u64::from(LAST_STAMP) {
            return None;
        }
        Some(now)
    }

    /// Consumes one occurrence, and gives the events whose thresholds it passes.
    #[inline(always)]
    pub fn take(&mut self, o: &Occ) -> Taken
        requires few { self.old.taken < MOST_OCCURRENCES }
        requires stamp { o.now.stamp ≤ LAST_STAMP }
        requires rises { time_after self.old.last ≤ o.now.stamp }
        ensures taken { self.new.taken ≡ self.old.taken + 1 }
        ensures last { self.new.last ≡ Some o.now }
        ensures shape { self.new.shape ≡ self.old.shape }
        ensures stands { (book : Book) (a : Account) → CoreStands book self.old a
            → CoreStands book self.new (consumed a o.now) }
        ensures agrees { (book : Book) → AgreesWith book self.old → AgreesWith book self.new }
        ensures notes { (book : Book) (a : Account) → CoreStands book self.old a
            → notes_at book a.thread a.past o.now 0 a.sets
            ≡ map (note a.thread result.set o.now) result.passed }
        ensures none { result.passed ≡ [] → result.set ≡ 0 }
    {
        // An amount has 8 bits, which is known of what is read.
        let _amount = o.amount;
        let runner = self.running.on(&self.slots, u32::from(o.comp));
        let before = self.last.as_ref();
        let taken = count_all(&mut self.units, &mut self.slots, before, o, runner);
        self.taken += 1;
        self.last = Some(*o);
        taken
    }
}
