//! Each tool by itself, once with ample memory.
use super::lab::{files_of, recorders, words_in};
use papi_base::MemSink;
use papi_tools::{
    Status, avail, decode, encode_tool, event_chooser, native_avail, run_tool, soak, status_number,
};
use std::alloc::{AllocError, Global};
use std::marker::Sync;
use std::test::Fail;
use std::thread::Threads;

// A tool, by the call that is its own.
#[derive(Clone, Copy, Debug)]
enum Tool {
    Run,
    Avail,
    NativeAvail,
    Decode,
    EventChooser,
    Encode,
    Soak,
}

// The tool's own call over these words.
fn called<R: Threads + Sync>(
    rt: &R,
    alloc: Global,
    tool: Tool,
    words: &[String],
    out: &mut MemSink,
    err: &mut MemSink,
) -> Result<Status, AllocError> {
    let mut files = files_of(
        alloc,
        "0 create\n0 add 0 CYCLES\n0 start 0\n0 run 2\n",
        "0 3c 00 u 7 1\n",
    )?;
    let files = &mut files;
    let mut handlers = recorders(alloc)?;
    Ok(match tool {
        Tool::Run => run_tool(rt, alloc, words, files, out, err, &mut handlers),
        Tool::Avail => avail(rt, alloc, words, files, out, err),
        Tool::NativeAvail => native_avail(rt, alloc, words, files, out, err),
        Tool::Decode => decode(rt, alloc, words, files, out, err),
        Tool::EventChooser => event_chooser(rt, alloc, words, files, out, err),
        Tool::Encode => encode_tool(rt, alloc, words, files, out, err),
        Tool::Soak => soak(rt, alloc, words, out, err, &mut handlers),
    })
}

// A tool, its words, the status, and the output up to the room of `out`.
const CALLS: [(Tool, &str, u8, &str); 7] = [
    (Tool::Run, "-U lab.unit s t", 5, "1 0 create PAPI_OK 0\n"),
    (
        Tool::Avail,
        "-U lab.unit -P lab.presets -C lab1 -e PAPI_L1_DCM",
        5,
        "Name: PAPI_L1_DCM\nCod",
    ),
    (Tool::NativeAvail, "-U lab.unit -e NO", 1, "NOTFOUND: NO\n"),
    (
        Tool::Decode,
        "-U lab.unit -P lab.presets -C none",
        0,
        "CPU,none\n",
    ),
    (
        Tool::EventChooser,
        "-U lab.unit NATIVE NO",
        1,
        "NO: PAPI_ENOEVNT\n",
    ),
    (
        Tool::Encode,
        "-U lab.unit cycles",
        0,
        "lab::CYCLES 0x53003c\n",
    ),
    (Tool::Soak, "1 --workers 2", 5, "thread 0: 2152 1651 1"),
];

#[test]
fn each_tool_by_itself(rt: HostRuntime) -> Result<(), Fail> {
    let alloc = rt.alloc();
    for (tool, line, status, text) in CALLS {
        let words = words_in(alloc, line)?;
        let mut out = MemSink::new(alloc, 21);
        let mut err = MemSink::new(alloc, 100);
        let ended = called(&rt, alloc, tool, words.as_slice(), &mut out, &mut err)?;
        assert_eq!(rt; status_number(ended), status, "{line}");
        assert_eq!(rt; out.bytes(), text.as_bytes(), "{line}");
        assert_eq!(rt; err.bytes(), b"".as_slice());
    }
    Ok(())
}
