//! Maps of as many ranges as a map may have, and of one more.

use profil_hist::{MapCause, MapFault, read_map};
use std::fmt::Write;
use std::test::Fail;

#[test]
fn a_map_of_1024_ranges_and_one_more(rt: HostRuntime) -> Result<(), Fail> {
    let mut text = String::new(rt.alloc());
    for k in 0..1024u32 {
        write!(text, "RANGE,r{k},{:#x},64,1\n", k as u64 * 64)?;
    }
    let map = read_map(rt.alloc(), text.as_bytes())?;
    assert_eq!(rt; map.ranges(), 1024);
    text.push_str("RANGE,more,0x10000,64,1\n")?;
    let fault = MapFault::Row {
        row: 1025,
        cause: MapCause::OverLimit,
    };
    assert!(rt; read_map(rt.alloc(), text.as_bytes()).err() == Some(fault));
    Ok(())
}
