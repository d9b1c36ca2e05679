//! The files of the disk.
ghost use Rattle.std.specs.Prelude.{◌≡◌, None, IfOk};
ghost use Rattle.std.specs.Io.Buffered.{reader_capacity, reader_inner};

use papi_base::{Failed, Files, OpenFail, ReadSource, Source};
use std::fs::File;
use std::io::{BufReader, ErrorKind};
use std::{fs, io};

/// How many bytes the system is asked for at a time.
const DISK_PIECE: usize = 65_536;

/// A file of the disk that is read, in larger pieces than it is asked for. What a read of the file gives is handed on before the next one.
#[derive(Drop)]
pub struct DiskSource {
    reader: ReadSource<BufReader<File>>,
}

// A file read in large pieces.
fn in_large_pieces(rt: &HostRuntime, file: File) -> io::Result<BufReader<File>>
    ensures file { IfOk result (λ reader. reader_inner reader ≡ file) }
    ensures piece { IfOk result (λ reader. reader_capacity reader ≡ DISK_PIECE) }
{
    BufReader::with_capacity(rt.alloc(), DISK_PIECE, file)
}

impl Source for DiskSource {
    ghost use Rattle.papi_base.specs.Adapter.{faults_of};

    ghost faults = { λ s. faults_of s.reader };

    ghost tape = { λ _. None };

    fn read(&mut self, buf: &mut [u8]) -> Result<usize, Failed> {
        self.reader.read(buf)
    }
}

/// The files of the disk, by their paths. They tell nothing of what they hold.
#[derive(Drop)]
pub struct DiskFiles<'a> {
    rt: &'a HostRuntime,
    misses: u64,
    faults: u64,
    lent: u64,
}

impl<'a> DiskFiles<'a> {
    /// No misses and no faults so far.
    pub fn new(rt: &'a HostRuntime) -> Self {
        DiskFiles {
            rt,
            misses: 0,
            faults: 0,
            lent: 0,
        }
    }
}

impl<'a> Files for DiskFiles<'a> {
    type S = DiskSource;

    ghost misses = { λ f. f.misses };

    ghost faults = { λ f. f.faults };

    ghost lent = { λ f. f.lent };

    ghost held = { λ _. None };

    fn open_source(&mut self, name: &str) -> Result<DiskSource, OpenFail> {
        match fs::open(self.rt, name) {
            Ok(file) => {
                let Some(lent) = self.lent.checked_add(1) else {
                    return Err(OpenFail::Memory);
                };
                let Ok(reader) = in_large_pieces(self.rt, file) else {
                    return Err(OpenFail::Memory);
                };
                self.lent = lent;
                Ok(DiskSource {
                    reader: ReadSource::new(reader),
                })
            }
            Err(error) => {
                if error.kind() == ErrorKind::NotFound {
                    self.misses = self.misses.saturating_add(1);
                    Err(OpenFail::Absent)
                } else {
                    self.faults = self.faults.saturating_add(1);
                    Err(OpenFail::Failed)
                }
            }
        }
    }

    fn close_source(&mut self, source: DiskSource) {
        self.lent = self.lent.saturating_sub(1);
        if source.reader.has_failed() {
            self.faults = self.faults.saturating_add(1);
        }
    }
}
