//! What a script's lines ask for, looked up.
use call_type::Asked;
use papi_base::{Code, EventRef};
use session_model::Named;
use std::marker::Model;

/// What a line asks for: a call on its thread's session; the code of an event, or the code with which its text was
/// refused (PAPI_event_name_to_code(3)); the event of a code, if there is one (PAPI_event_code_to_name(3)); or the
/// registered threads (PAPI_list_threads(3)).
pub type Planned = Asked<Named, Result<u32, Code>, Option<EventRef>>;

/// A line of a plan: the number of its script line from 1, its thread below [`papi_base::THREADS`], and what it asks for.
#[derive(Clone, Copy)]
pub struct PlanLine {
    pub number: u64,
    pub thread: u32,
    pub planned: Planned,
}

/// The lines of a plan, each of a thread below [`papi_base::THREADS`]. Contracts see the list of them.
#[derive(Drop)]
pub struct Plan {
    lines: Vec<PlanLine>,
}

impl Model for Plan {
    ghost use Rattle.std.specs.Prelude.{List};
    ghost use Rattle.thread_registry.specs.declared.runner.plan.PlanLine.{PlanLine};
    ghost use Rattle.thread_registry.specs.Plans.{AreThreads};

    ghost Value = { List PlanLine };

    ghost view = { λ p. p.lines.items };

    ghost invariant = { λ p. AreThreads p.lines.items };
}

impl Plan {
    ghost use Rattle.std.specs.Prelude.{◌≡◌};
    ghost use Rattle.thread_registry.specs.Plans.{AreThreads};

    /// A plan of these lines.
    pub fn new(lines: Vec<PlanLine>) -> Plan
        requires threads { AreThreads lines.items }
        ensures lines { result ≡ lines.items }
    {
        Plan { lines }
    }

    /// The lines.
    pub fn lines(&self) -> &[PlanLine]
        ensures lines { result.now ≡ self.now }
        ensures threads { AreThreads self.now }
    {
        self.lines.as_slice()
    }
}
