//! A handler that keeps its notes in memory.
ghost use Rattle.std.specs.Prelude.{◌≡◌, [], OnErr, OnOk};

use crate::handler::{Handler, Note};
use std::alloc::{AllocError, Global};
use std::marker::Model;

/// Keeps the notes in memory. Contracts see the list of them.
#[derive(Drop)]
pub struct Recorder {
    list: Vec<Note>,
}

impl Model for Recorder {
    ghost use Rattle.std.specs.Prelude.{List};
    ghost use Rattle.overflow_dispatch.specs.declared.handler.Note.{Note};

    ghost Value = { List Note };

    ghost view = { λ r. r.list.items };
}

impl Recorder {
    /// There are no notes yet.
    pub fn new(alloc: Global) -> Recorder
        ensures { result ≡ [] }
    {
        Recorder {
            list: Vec::new(alloc),
        }
    }
}

impl Handler for Recorder {
    ghost notes = { λ r. r };

    fn on_overflow(&mut self, note: Note) -> Result<(), AllocError> {
        self.list.push(note)?;
        Ok(())
    }

    fn noted(&self) -> u64 {
        self.list.len() as u64
    }

    fn note_at(&self, i: u64) -> Option<Note> {
        self.list.get(i as usize).copied()
    }
}
