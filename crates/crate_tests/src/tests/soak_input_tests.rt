//! Streams of soaks in pieces, and a summary whose sum wraps.
use papi_base::{Source, Values, read_whole};
use soak_input::{SoakSource, ThreadTotal, summary_text};
use std::test::Fail;

// The numbers are those of a model of docs/FORMATS.md in another language.
#[test]
fn a_stream_whole_and_in_pieces(rt: HostRuntime) -> Result<(), Fail> {
    let whole = read_whole(rt.alloc(), &mut SoakSource::new(1, 3), 10_000)?;
    assert!(rt;
        whole
            .as_slice()
            .starts_with(b"0 2e 02 u 139 40007f\n0 c5 02 k 193 4001cb\n")
    );
    let mut source = SoakSource::new(1, 3);
    let mut part = [0; 7];
    let mut pieces = Vec::new(rt.alloc());
    for _read in 0..whole.len() {
        let count = source.read(&mut part)?;
        pieces.extend_from_slice(&part[..count])?;
    }
    assert!(rt; pieces.as_slice() == whole.as_slice());
    Ok(())
}

#[test]
fn a_sum_that_wraps(rt: HostRuntime) -> Result<(), Fail> {
    let mut values = Values::new();
    values.push(1);
    values.push(-2);
    values.push(i64::MAX);
    let mut others = Values::new();
    others.push(2);
    others.push(0);
    others.push(0);
    let totals = [
        ThreadTotal { values, notes: 7 },
        ThreadTotal {
            values: others,
            notes: 0,
        },
    ];
    let summary = summary_text(rt.alloc(), &totals, 36)?;
    assert_eq!(rt;
        summary.as_str(),
        "thread 0: 1 -2 9223372036854775807 notes 7\nthread 1: 2 0 0 notes 0\nreplies 36\nsum -9223372036854775808\n"
    );
    Ok(())
}
