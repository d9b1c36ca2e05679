//! The program: adapters over real files and standard streams, and a handler for each thread.
#![tactic(auto)]

ghost use Rattle.std.specs.Prelude.{◌≡◌, IfOk, vec_len};

mod disk;
mod streams;

use crate::disk::DiskFiles;
use crate::streams::Standard;
use overflow_dispatch::{Handler, Recorder};
use papi_base::{THREADS, WriteSink};
use papi_tools::{papi_main, status_number};
use std::alloc::AllocError;
use std::env;
use std::io::ErrorKind;
use std::marker::Sync;
use std::process::ExitCode;
use std::thread::Threads;

// The words after the program's name. Words that are not UTF-8 count as no words at all.
fn words(rt: &HostRuntime) -> Result<Vec<String>, AllocError> {
    let mut words = Vec::new(rt.alloc());
    match env::args(rt) {
        Ok(args) => {
            for word in args.skip(1) {
                words.push(word)?;
            }
        }
        Err(error) => {
            if error.kind() == ErrorKind::OutOfMemory {
                return Err(AllocError);
            }
        }
    }
    Ok(words)
}

// The status if memory is refused before the work.
const NO_MEMORY: u8 = 4;

// The number of the status with which the words are carried out.
fn run<R: Threads + Sync>(threads: &R, rt: &HostRuntime) -> Result<u8, AllocError> {
    let alloc = rt.alloc();
    let words = words(rt)?;
    let mut handlers: Vec<Box<dyn Handler + Send>> = Vec::new(alloc);
    for _thread in 0..THREADS as usize {
        handlers.push(Box::new(alloc, Recorder::new(alloc))?)?;
    }
    let mut out = WriteSink::new(Standard::Out(rt.stdout()));
    let mut err = WriteSink::new(Standard::Err(rt.stderr()));
    let mut files = DiskFiles::new(rt);
    let status = papi_main(
        threads,
        alloc,
        &words,
        &mut files,
        &mut out,
        &mut err,
        &mut handlers,
    );
    Ok(status_number(status))
}

fn main(rt: HostRuntime) -> ExitCode {
    match run(&rt, &rt) {
        Ok(number) => ExitCode::from(number),
        Err(_) => ExitCode::from(NO_MEMORY),
    }
}
