//! Tasks that several workers share.
use std::alloc::AllocError;
use std::sync::atomic::{AtomicU64, Ordering};
use std::thread;
use thread_registry::tasks::cut::{count_busy, cut};
use thread_registry::tasks::{Task, work_tasks};

/// A number to which the book's is added once. It asks for as much work as the number says.
#[derive(Drop)]
struct Adding {
    number: u32,
}

impl Task<u32> for Adding {
    ghost use Rattle.std.specs.Prelude.{◌≡◌, ◌+◌, ◌%◌, ◌^◌, ⊤};

    ghost ready = { λ offset task. ⊤ };

    ghost done = { λ offset old new. new.number ≡ (old.number + offset) % 2 ^ 32 };

    ghost load = { λ task. task.number };

    fn load(&self) -> u32 {
        self.number
    }

    fn work(&mut self, book: &u32) {
        self.number = self.number.wrapping_add(*book);
    }
}

/// Whether four tasks were at work at one time.
#[derive(Drop)]
struct Meeting {
    met: bool,
}

impl Task<AtomicU64> for Meeting {
    ghost use Rattle.std.specs.Prelude.{⊤};

    ghost ready = { λ begun task. ⊤ };

    ghost done = { λ begun old new. ⊤ };

    ghost load = { λ task. 1 };

    fn load(&self) -> u32 {
        1
    }

    fn work(&mut self, begun: &AtomicU64) {
        begun.fetch_add(1, Ordering::SeqCst);
        for _ in 0..10_000_000u32 {
            self.met = begun.load(Ordering::SeqCst) == 4;
            if self.met {
                return;
            }
            thread::yield_now();
        }
    }
}

#[test]
fn four_tasks_of_four_workers_are_worked_at_one_time(rt: HostRuntime) -> Result<(), AllocError> {
    let mut tasks: Vec<Meeting> = Vec::new(rt.alloc());
    for _ in 0..4u32 {
        tasks.push(Meeting { met: false })?;
    }
    work_tasks(&rt, &AtomicU64::new(0), &mut tasks, 4);
    for task in &tasks {
        assert!(rt; task.met);
    }
    Ok(())
}

#[test]
fn the_cut_is_where_the_work_is_even(rt: HostRuntime) {
    let cuts = [
        ([5, 5, 5, 5], 2, 4, 2),
        ([1, 1, 1, 3], 1, 2, 3),
        ([0, 0, 9, 9], 1, 2, 3),
        ([900, 1, 1, 1], 1, 2, 1),
        ([900, 1, 1, 1], 2, 4, 2),
        ([4, 4, 4, 0], 1, 3, 1),
        ([2, 0, 9, 9], 1, 3, 1),
    ];
    for (numbers, low, workers, want) in cuts {
        let tasks = numbers.map(|number| Adding { number });
        assert!(rt; workers as usize <= count_busy(&tasks));
        assert_eq!(rt; cut(&tasks, low, workers), want, "{numbers:?}");
    }
}
