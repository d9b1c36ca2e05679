//! A sink that counts its writes: replies are gathered before they are written.
use super::lab::{ended, files_of};
use papi_base::{Sink, WriteFail};
use std::test::Fail;

// How often it was written to, and how many bytes it has taken.
#[derive(Drop)]
struct CountingSink {
    writes: u64,
    bytes: u64,
}

impl Sink for CountingSink {
    ghost use Rattle.std.specs.Prelude.{None};

    ghost faults = { λ _. 0 };

    ghost taken = { λ _. None };

    fn write(&mut self, piece: &[u8]) -> Result<usize, WriteFail> {
        self.writes = self.writes.saturating_add(1);
        self.bytes = self.bytes.saturating_add(piece.len() as u64);
        Ok(piece.len())
    }
}

#[test]
fn replies_are_written_in_pieces(rt: HostRuntime) -> Result<(), Fail> {
    let alloc = rt.alloc();
    let mut script = String::new(alloc);
    for _ in 0..5000u32 {
        script.push_str("0 state 0\n")?;
    }
    let mut out = CountingSink {
        writes: 0,
        bytes: 0,
    };
    let mut err = CountingSink {
        writes: 0,
        bytes: 0,
    };
    let mut files = files_of(alloc, script.as_str(), "")?;
    let line = "papi_run -U lab.unit s t";
    let status = ended(&rt, alloc, line, &mut files, &mut out, &mut err)?;
    assert_eq!(rt; status, 0);
    // A line such as `5000 0 state PAPI_ENOEVST` has 22 to 25 bytes.
    assert!(rt; out.bytes > 100_000 && out.writes < 5);
    Ok(())
}
