//! Sources that wait for one another: the runs of threads on several workers go on at the same time.
use super::lab::{UNIT, ended};
use papi_base::{Failed, Files, MemSink, OpenFail, Source};
use std::alloc::{AllocError, Global};
use std::marker::Sync;
use std::process::Abort;
use std::sync::atomic::{AtomicU64, Ordering};
use std::test::Fail;
use std::thread::Threads;

// How often a source looks for the others.
const LOOKS: u64 = 1_000_000_000;

const LINE: &str = "0 c0 00 u 1 1\n";

// How many sources were asked, of those that wait for one another.
#[derive(Drop)]
struct Meeting {
    asked: AtomicU64,
    all: u64,
}

impl Meeting {
    // Whether all were asked, within some time.
    fn met(&self) -> bool {
        self.asked.fetch_add(1, Ordering::SeqCst);
        for _ in 0..LOOKS {
            if self.asked.load(Ordering::SeqCst) >= self.all {
                return true;
            }
        }
        false
    }
}

// Gives a text. If it has a meeting, its first read waits for that, and fails if the others do not come.
#[derive(Drop)]
struct WaitingSource<'a> {
    rest: &'a [u8],
    meeting: Option<&'a Meeting>,
    faults: u64,
}

impl<'a> Source for WaitingSource<'a> {
    ghost use Rattle.std.specs.Prelude.{None};

    ghost faults = { λ s. s.faults };

    ghost tape = { λ _. None };

    fn read(&mut self, buf: &mut [u8]) -> Result<usize, Failed> {
        if let Some(meeting) = self.meeting {
            self.meeting = None;
            if !meeting.met() {
                self.faults = self.faults.saturating_add(1);
                return Err(Failed);
            }
        }
        let n = self.rest.len().min(buf.len());
        let (now, rest) = self.rest.split_at(n);
        buf[..n].copy_from_slice(now);
        self.rest = rest;
        Ok(n)
    }
}

// The unit, the script, streams `t` of one line that wait for one another, and empty streams.
#[derive(Drop)]
struct WaitingFiles<'a> {
    script: &'a str,
    meeting: &'a Meeting,
    misses: u64,
    faults: u64,
    lent: u64,
}

impl<'a> Files for WaitingFiles<'a> {
    type S = WaitingSource<'a>;

    ghost use Rattle.std.specs.Prelude.{None};

    ghost misses = { λ f. f.misses };

    ghost faults = { λ f. f.faults };

    ghost lent = { λ f. f.lent };

    ghost held = { λ _. None };

    fn open_source(&mut self, name: &str) -> Result<WaitingSource<'a>, OpenFail> {
        let Some(lent) = self.lent.checked_add(1) else {
            return Err(OpenFail::Memory);
        };
        self.lent = lent;
        let (text, meeting) = match name {
            "lab.unit" => (UNIT, None),
            "s" => (self.script, None),
            "t" => (LINE, Some(self.meeting)),
            _ => ("", None),
        };
        Ok(WaitingSource {
            rest: text.as_bytes(),
            meeting,
            faults: 0,
        })
    }

    fn close_source(&mut self, source: WaitingSource<'a>) {
        self.lent = self.lent.saturating_sub(1);
        if source.faults != 0 {
            self.faults = self.faults.saturating_add(1);
        }
    }
}

// Each of these threads counts one line, and all are asked for it before one goes on.
fn check<R: Threads + Sync + Abort>(
    rt: &R,
    alloc: Global,
    threads: &[u32],
    workers: u32,
) -> Result<(), AllocError> {
    let mut line = format!(in alloc; "papi_run -U lab.unit --workers {workers} s")?;
    for thread in 0..64u32 {
        line.push_str(if threads.contains(&thread) {
            " t"
        } else {
            " e"
        })?;
    }
    let mut script = String::new(alloc);
    let mut replies = String::new(alloc);
    for (i, thread) in threads.iter().enumerate() {
        let calls = [
            ("create", "create PAPI_OK 0"),
            ("add 0 INST_RETIRED", "add PAPI_OK"),
            ("start 0", "start PAPI_OK"),
            ("run 1", "run PAPI_OK 1 0"),
        ];
        for (k, (call, reply)) in calls.iter().enumerate() {
            let number = (i as u64)
                .saturating_mul(4)
                .saturating_add(k as u64)
                .saturating_add(1);
            script.push_str(&format!(in alloc; "{thread} {call}\n")?)?;
            replies.push_str(&format!(in alloc; "{number} {thread} {reply}\n")?)?;
        }
    }
    let meeting = Meeting {
        asked: AtomicU64::new(0),
        all: threads.len() as u64,
    };
    let mut files = WaitingFiles {
        script: &script,
        meeting: &meeting,
        misses: 0,
        faults: 0,
        lent: 0,
    };
    let mut out = MemSink::new(alloc, 10_000);
    let mut err = MemSink::new(alloc, 10_000);
    let status = ended(rt, alloc, &line, &mut files, &mut out, &mut err)?;
    assert_eq!(rt; err.bytes(), b"".as_slice());
    assert_eq!(rt; status, 0);
    assert_eq!(rt; out.bytes(), replies.as_bytes());
    Ok(())
}

#[test]
fn workers_go_on_at_once(rt: HostRuntime) -> Result<(), Fail> {
    let alloc = rt.alloc();
    check(&rt, alloc, &[0, 63], 2)?;
    check(&rt, alloc, &[0, 1], 2)?;
    check(&rt, alloc, &[0, 1, 2, 3], 4)?;
    Ok(())
}
