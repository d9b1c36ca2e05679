//! The handlers have all notes of a soak and of a run, though standard output takes ninety bytes.
use super::lab::{ended_with, files_of, recorders};
use overflow_dispatch::Handler;
use papi_base::MemSink;
use std::alloc::{AllocError, Global};
use std::marker::Send;
use std::test::Fail;

const SCRIPT: &str = "0 create\n\
0 add 0 CYCLES\n\
0 overflow 0 CYCLES 256\n\
0 start 0\n\
0 run 4\n";

const STREAM: &str = "0 3c 00 u 255 1\n\
0 3c 00 u 255 2\n\
0 3c 00 u 255 3\n\
0 3c 00 u 255 4\n";

// Words, and the notes: thread, set, index and program counter.
const CASES: &str = "papi_soak 1 -> \
0 0 0 0x4006d5, 0 0 0 0x4001d3, 1 0 0 0x4000d9, 2 0 0 0x4001dc, 3 0 0 0x400ef2, \n\
papi_soak 2 -> \
0 0 0 0x40047c, 0 0 0 0x400494, 1 0 0 0x400189, 1 0 0 0x400cf3, 1 0 0 0x400c14, 1 0 0 0x40018f, \
2 0 0 0x4005ce, 2 0 0 0x400126, 2 0 0 0x400fe4, 2 0 0 0x40061f, 3 0 0 0x4007e5, 3 0 0 0x400e7f, \
3 0 0 0x400cd0, \n\
papi_run -U lab.unit --notes s t -> 0 0 0 0x2, 0 0 0 0x3, 0 0 0 0x4, ";

fn notes_text(
    alloc: Global,
    handlers: &Vec<Box<dyn Handler + Send>>,
) -> Result<String, AllocError> {
    let mut text = String::new(alloc);
    for handler in handlers {
        for i in 0..handler.noted() {
            if let Some(note) = handler.note_at(i) {
                let (thread, set, index) = (note.thread, note.set, note.index);
                text.push_str(&format!(in alloc; "{thread} {set} {index} {:#x}, ", note.pc)?)?;
            }
        }
    }
    Ok(text)
}

#[test]
fn handlers_have_their_notes_where_standard_output_is_full(rt: HostRuntime) -> Result<(), Fail> {
    let alloc = rt.alloc();
    for case in CASES.lines() {
        let (line, notes) = case.split_once(" -> ").expect(&rt, "words");
        let mut handlers = recorders(alloc)?;
        let mut files = files_of(alloc, SCRIPT, STREAM)?;
        let mut out = MemSink::new(alloc, 90);
        let mut err = MemSink::new(alloc, 100);
        let ended = ended_with(
            &rt,
            alloc,
            line,
            &mut files,
            &mut out,
            &mut err,
            &mut handlers,
        )?;
        assert_eq!(rt; ended, 5, "{line}");
        let came = notes_text(alloc, &handlers)?;
        assert_eq!(rt; came.as_str(), notes, "{line}");
    }
    Ok(())
}
