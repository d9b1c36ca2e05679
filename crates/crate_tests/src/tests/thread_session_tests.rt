//! Memory that is refused in a run of a session.
ghost use Rattle.std.specs.Prelude.{[], ◌∷◌};

use super::calls::make_calls;
use overflow_dispatch::{Handler, Note};
use papi_base::{CompShape, Ending, EventRef, MemSource, Mods, Native, Shape};
use postfix_rules::PresetBook;
use session_model::{Body, Call, Reply};
use std::alloc::AllocError;
use std::test::Fail;
use stream_reader::StreamReader;
use thread_session::Session;

// Retired instructions: select c0 on the first counter.
const INST: Native = Native {
    comp: 0,
    event: 0,
    select: 0xc0,
    masks: 0,
    umask: 0,
    mods: Mods {
        user: false,
        kernel: false,
        edge: false,
        invert: false,
        cmask: 0,
    },
    allowed: 1,
};

// A handler that is refused memory at its second note.
#[derive(Drop)]
struct OneNote {
    taken: Option<Note>,
}

impl Handler for OneNote {
    ghost use Rattle.std.specs.Option.{option_map_or};

    ghost notes = { λ h. option_map_or (λ note. note ∷ []) h.taken [] };

    fn on_overflow(&mut self, note: Note) -> Result<(), AllocError> {
        if self.taken.is_some() {
            return Err(AllocError);
        }
        self.taken = Some(note);
        Ok(())
    }

    fn noted(&self) -> u64 {
        u64::from(self.taken.is_some())
    }

    fn note_at(&self, i: u64) -> Option<Note> {
        if i == 0 { self.taken } else { None }
    }
}

// The first value of a reply, or what its run consumed.
fn number_in(reply: &Reply) -> Option<i64> {
    match &reply.body {
        Body::Values(values) => values.get(0),
        Body::Ran(ran) => Some(i64::from(ran.consumed)),
        _ => None,
    }
}

// What stands after memory was refused at the second note: all eight occurrences are consumed and counted.
#[test]
fn memory_is_refused_in_a_run(rt: HostRuntime) -> Result<(), Fail> {
    let alloc = rt.alloc();
    let e = Ok(EventRef::Native(INST));
    let t = 1000;
    let before = [
        Call::Create,
        Call::Add { set: 0, e },
        Call::Overflow { set: 0, e, t },
        Call::Start { set: 0 },
    ];
    let after = [Call::Read { set: 0 }, Call::Run { n: 1 }];
    let book = PresetBook::new(Vec::new(alloc));
    let mut comp = CompShape::new();
    comp.push(16);
    let mut shape = Shape::new();
    shape.push(comp);
    let bytes = b"0 c0 00 u 255 1\n".as_slice().repeat(alloc, 8)?;
    let source = MemSource::new(bytes, Ending::End, 4096);
    let mut session = Session::new(alloc, 0, shape, StreamReader::new(source))?;
    let mut handler = OneNote { taken: None };
    make_calls(alloc, &mut session, &book, &before, &mut handler)?;
    assert!(rt; session.run(&book, 8, &mut handler).is_err());
    assert_eq!(rt; handler.noted(), 1);
    let replies = make_calls(alloc, &mut session, &book, &after, &mut handler)?;
    assert_eq!(rt; replies.len(), 2);
    for (reply, want) in replies.iter().zip([2040, 0]) {
        assert_eq!(rt; number_in(reply), Some(want));
    }
    Ok(())
}
