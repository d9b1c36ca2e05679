//! Which threads are registered (PAPI_register_thread(3), PAPI_list_threads(3)).
ghost use Rattle.std.specs.Prelude.{◌≡◌, ◌<◌, false, List, map, replicate, slice_set};
ghost use Rattle.session_model.specs.Account.{Account};
ghost use Rattle.session_model.specs.World.{listed_from};
ghost use Rattle.session_model.specs.Worlds.{bits_from};

use papi_base::THREADS;
use std::marker::Model;

/// For each thread whether it is registered. Contracts see the list of these, [`THREADS`] of them.
#[derive(Drop)]
pub struct Registry {
    registered: [bool; THREADS as usize],
}

impl Model for Registry {
    ghost use Rattle.std.specs.Prelude.{Bool, List, length, ◌≡◌};
    ghost use Rattle.papi_base.specs.declared.limits.TheConstants.{THREADS};

    ghost Value = { List Bool };

    ghost view = { λ r. r.registered };

    ghost invariant = { λ r. length r.registered ≡ THREADS };
}

impl Registry {
    /// No thread is registered.
    pub fn new() -> Registry
        ensures none { result ≡ replicate THREADS false }
    {
        Registry {
            registered: [false; THREADS as usize],
        }
    }

    /// Registers the thread, or takes it out again. The thread is below [`THREADS`].
    pub fn set(&mut self, thread: u32, on: bool)
        requires thread { thread < THREADS }
        ensures set { self.new ≡ slice_set self.old thread on }
    {
        self.registered[thread as usize] = on;
    }

    /// The registered threads, as bits from the lowest.
    pub fn listed(&self) -> u64
        ensures bits { result ≡ bits_from 1 self.now }
        ensures listed { (accounts : List Account) → map (λ a. a.registered) accounts ≡ self.now
            → result ≡ listed_from 1 accounts }
    {
        let mut listed = 0;
        for thread in (0..THREADS as usize).rev() {
            listed = 2 * listed + u64::from(self.registered[thread]);
        }
        listed
    }
}
