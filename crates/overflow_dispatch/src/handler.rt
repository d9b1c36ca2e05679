//! Handlers of overflows, each seen as the list of what it was told (PAPI_overflow(3)).
ghost use Rattle.std.specs.Prelude.{◌≡◌, ◌++◌, ◌∷◌, [], List, length, slice_get, OnErr, OnOk};

use std::alloc::AllocError;

/// A passed threshold: the thread, the number of its event set, the event's index in it from 0, and
/// the program counter of the occurrence.
#[derive(Clone, Copy, Debug, PartialEq, Eq)]
pub struct Note {
    pub thread: u32,
    pub set: u32,
    pub index: u32,
    pub pc: u64,
}

/// Takes the notes of one thread.
pub trait Handler: Drop {
    ghost use Rattle.overflow_dispatch.specs.declared.handler.Note.{Note};

    ghost notes: { Self → List Note };

    /// Takes one note, at the end of the list. An `Err` comes if memory is refused, and leaves the list.
    fn on_overflow(&mut self, note: Note) -> Result<(), AllocError>
        ensures ok { OnOk result (notes self.new ≡ notes self.old ++ note ∷ []) }
        ensures err { OnErr result (notes self.new ≡ notes self.old) };

    /// How many notes were taken.
    fn noted(&self) -> u64
        ensures { result ≡ length (notes self.now) };

    /// The note at this place from 0, if there is one.
    fn note_at(&self, i: u64) -> Option<Note>
        ensures { result ≡ slice_get (notes self.now) i };
}
