//! Streams that were worked by hand, in pieces of every kind.
ghost use Rattle.std.specs.Prelude.{◌<◌};

use papi_base::{Ending, Failed, LineCause, MemSource, Source};
use std::alloc::{AllocError, Global};
use std::process::Abort;
use std::test::Fail;
use stream_reader::{Next, StreamReader};

// Streams and what is read of them before the end. Here `/` stands for a newline, `~` for a return, and `!` for a read that fails.
const STREAMS: &str = "\x20-> \n\
version 2 -> \n\
0 c0 00 u 1 10/0 c0 00 u 2 20 -> 0 c0 00 u 1 10 0; 0 c0 00 u 2 20 1\n\
/~/# x/0 C0 00 u 1 10~/0 c0 00 u 2 20~/ -> 0 c0 00 u 1 10 0; 0 c0 00 u 2 20 1\n\
version 2~/0 c4 01 u 3 1 0/0 c5 00 u 2 2 1/0 c5 00 u 5 3 2/0 c4 01 u 4 4 9/ -> 0 c4 01 u 3 1 0; 0 c5 00 u 2 2 1; 0 c5 00 u 5 3 2; 0 c4 01 u 4 4 9\n\
version 2/0 c4 01 u 3 1 0/0 c5 00 u 2 2 1/0 c5 00 u 5 3 2/0 c4 01 u 4 4 2/ -> 0 c4 01 u 3 1 0; 0 c5 00 u 2 2 1; 0 c5 00 u 5 3 2; bad line 5 Stamp\n\
0 c0 00 u 1 1/0 c0 00! -> 0 c0 00 u 1 1 0; ReadFault\n\
0 c0 00 u 1 1/0 c0 00 u 256 1/ -> 0 c0 00 u 1 1 0; bad line 2 Field\n\
0  c0 00 u 1 1 -> bad line 1 Fields\n\
0 c0 00 u 0 1 -> bad line 1 Field\n\
16 c0 00 u 1 1 -> bad line 1 Field\n\
0 c0 00 u 1 1~ -> bad line 1 Field\n\
#/version 2/ -> bad line 2 Fields\n\
################################################################################################################################/0 c0 00 u 1 1/ -> \
0 c0 00 u 1 1 0\n\
################################################################################################################################~/0 c0 00 u 1 1/ -> \
bad line 1 Long\n\
################################################################################################################################! -> ReadFault\n\
################################################################################################################################# -> bad line 1 Long\n\
#################################################################################################################################! -> bad line 1 Long\n\
xxxxxxxxxxxxxxxxxxxxxxxxxxxxxxxxxxxxxxxxxxxxxxxxxxxxxxxxxxxxxxxxxxxxxxxxxxxxxxxxxxxxxxxxxxxxxxxxxxxxxxxxxxxxxxxxxxxxxxxxxxxxxxxx/ -> bad line 1 Fields\n\
xxxxxxxxxxxxxxxxxxxxxxxxxxxxxxxxxxxxxxxxxxxxxxxxxxxxxxxxxxxxxxxxxxxxxxxxxxxxxxxxxxxxxxxxxxxxxxxxxxxxxxxxxxxxxxxxxxxxxxxxxxxxxxxxx/ -> bad line 1 Long\n\
0 c0 00 u 7 400abc/9 FF a1 k 42 0123456789abcdef/3 0e 1F u 255 F/12 c0 00 k 100 8000000000000000/0 c0 00 u 1 10/ -> \
0 c0 00 u 7 400abc 0; 9 ff a1 k 42 123456789abcdef 1; 3 0e 1f u 255 f 2; 12 c0 00 k 100 8000000000000000 3; 0 c0 00 u 1 10 4\n\
0 c0 00 u 256 1/0 c0 00 u 1 400abc/0 c0 00 u 1 400abc/ -> bad line 1 Field\n\
0 c0 00 u 0 1/0 c0 00 u 1 400abc/0 c0 00 u 1 400abc/ -> bad line 1 Field\n\
0 c0 00 u 01 1/0 c0 00 u 1 400abc/0 c0 00 u 1 400abc/ -> bad line 1 Field\n\
0 c0 00 u 1 123456789abcdef01/0 c0 00 u 1 400abc/0 c0 00 u 1 400abc/ -> bad line 1 Field\n\
0 c0 00 u 1 /0 c0 00 u 1 400abc/0 c0 00 u 1 400abc/ -> bad line 1 Field\n\
0 c0 00 v 1 1/0 c0 00 u 1 400abc/0 c0 00 u 1 400abc/ -> bad line 1 Field\n\
0 c0 0g u 1 1/0 c0 00 u 1 400abc/0 c0 00 u 1 400abc/ -> bad line 1 Field\n\
a c0 00 u 1 1/0 c0 00 u 1 400abc/0 c0 00 u 1 400abc/ -> bad line 1 Field\n\
0 c0 00 u 1 1 0/0 c0 00 u 1 400abc/0 c0 00 u 1 400abc/ -> bad line 1 Fields\n\
version 2/0 c0 00 u 1 1/0 c0 00 u 1 400abc/0 c0 00 u 1 400abc/ -> bad line 2 Fields";

fn bytes_of(alloc: Global, text: &str) -> Result<Vec<u8>, AllocError> {
    let mut bytes = Vec::new(alloc);
    for byte in text.bytes() {
        match byte {
            b'/' => bytes.push(b'\n')?,
            b'~' => bytes.push(b'\r')?,
            b'!' => {}
            _ => bytes.push(byte)?,
        }
    }
    Ok(bytes)
}

// What a reader gives until it gives `End`.
fn said_by(alloc: Global, reader: &mut StreamReader<MemSource>) -> Result<String, AllocError> {
    let mut text = String::new(alloc);
    for _ in 0..10u32 {
        let said = match reader.next() {
            Next::End => return Ok(text),
            Next::Occ(o) => {
                let mode = if o.kernel { "k" } else { "u" };
                format!(in alloc;
                    "{} {:02x} {:02x} {mode} {} {:x} {}",
                    o.comp, o.select, o.umask, o.amount, o.pc, o.stamp
                )?
            }
            Next::Bad { line, cause } => format!(in alloc; "bad line {line} {cause:?}")?,
            other => format!(in alloc; "{other:?}")?,
        };
        if !text.is_empty() {
            text.push_str("; ")?;
        }
        text.push_str(said.as_str())?;
    }
    Ok(text)
}

// What a reader gives of these bytes, in pieces of at most this size, until it gives `End`.
fn told(alloc: Global, bytes: &[u8], ending: Ending, largest: usize) -> Result<String, AllocError>
    requires { 0 < largest }
{
    let source = MemSource::new(bytes.to_vec(alloc)?, ending, largest);
    said_by(alloc, &mut StreamReader::new(source))
}

// The same is read of these bytes whatever the pieces.
fn check(
    rt: &impl Abort,
    alloc: Global,
    bytes: &[u8],
    ending: Ending,
    expected: &str,
) -> Result<(), AllocError> {
    for largest in [1usize, 2, 3, 127, 128, 129, 4096] {
        if largest > 0 {
            let said = told(alloc, bytes, ending, largest)?;
            assert_eq!(rt; said.as_str(), expected, "in pieces of {largest}");
        }
    }
    Ok(())
}

#[test]
fn streams_in_pieces(rt: HostRuntime) -> Result<(), Fail> {
    for line in STREAMS.lines() {
        let (stream, expected) = line.split_once(" -> ").expect(&rt, "a stream");
        let bytes = bytes_of(rt.alloc(), stream)?;
        let fails = stream.ends_with("!");
        let ending = if fails { Ending::Fault } else { Ending::End };
        check(&rt, rt.alloc(), &bytes, ending, expected)?;
    }
    // A return is the last byte of a piece of 4,096, and its newline the first of the next one.
    let comment =
        b"#######################################################################################################################\n";
    let mut bytes = comment.as_slice().repeat(rt.alloc(), 34)?;
    bytes.extend_from_slice(b"0 c0 00 u 1 001\r\n0 c0 00 u 2 2\r\n")?;
    assert_eq!(&rt; bytes.get(4095).copied(), Some(b'\r'));
    let expected = "0 c0 00 u 1 1 0; 0 c0 00 u 2 2 1";
    check(&rt, rt.alloc(), &bytes, Ending::End, expected)?;
    Ok(())
}

// The same 128 bytes again and again, as long as some are left, and how often they were asked for.
#[derive(Drop)]
struct Repeated {
    bytes: [u8; 128],
    given: usize,
    left: usize,
    reads: u32,
}

impl Repeated {
    fn new(bytes: [u8; 128], left: usize) -> Repeated {
        Repeated {
            bytes,
            given: 0,
            left,
            reads: 0,
        }
    }
}

impl Source for Repeated {
    ghost use Rattle.std.specs.Prelude.{None};

    ghost faults = { λ _. 0 };

    ghost tape = { λ _. None };

    fn read(&mut self, buf: &mut [u8]) -> Result<usize, Failed> {
        self.reads = self.reads.saturating_add(1);
        let size = buf.len().min(self.left);
        for i in 0..size {
            buf[i] = self.bytes[self.given.wrapping_add(i) % 128];
        }
        self.given = self.given.wrapping_add(size);
        self.left -= size;
        Ok(size)
    }
}

#[test]
fn few_reads(rt: HostRuntime) {
    let mut lines = [0u8; 128];
    for i in 0..128usize {
        lines[i] = b"0 c0 00 u 1 123\n"[i % 16];
    }
    let mut reader = StreamReader::new(Repeated::new(lines, 160_000));
    let mut given = 0u64;
    for _ in 0..10_001u32 {
        match reader.next() {
            Next::Occ(o) => given = given.saturating_add(u64::from(o.amount)),
            other => assert_eq!(&rt; other, Next::End),
        }
    }
    assert_eq!(&rt; given, 10_000);
    let reads = reader.into_source().map_or(0, |source| source.reads);
    assert!(&rt; 0 < reads && reads <= 42, "{reads} reads");
}

#[test]
fn the_largest_stream(rt: HostRuntime) {
    let mut comment = [b'#'; 128];
    comment[127] = b'\n';
    let mut reader = StreamReader::new(Repeated::new(comment, usize::MAX));
    let next = reader.next();
    let bad = Next::Bad {
        line: 524_289,
        cause: LineCause::Size,
    };
    assert_eq!(&rt; next, bad);
    let next = reader.next();
    assert_eq!(&rt; next, Next::End);
}

#[test]
fn no_stream(rt: HostRuntime) {
    let mut reader: StreamReader<MemSource> = StreamReader::ended();
    let next = reader.next();
    assert_eq!(&rt; next, Next::End);
    assert!(&rt; reader.into_source().is_none());
}
