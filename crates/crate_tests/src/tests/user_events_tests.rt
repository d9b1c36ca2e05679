//! Preset files of as many user events as a processor may have, and of one more.

use preset_csv::{PresetCause, PresetFault};
use std::fmt::Write;
use std::test::Fail;
use user_events::read_extended;

#[test]
fn a_file_of_256_names_and_one_more(rt: HostRuntime) -> Result<(), Fail> {
    let mut text = String::from_str(rt.alloc(), "CPU,a\n")?;
    for i in 0..256u32 {
        write!(text, "EVENT,E{i},NOT_DERIVED,c\n")?;
    }
    // A name that is there is not one more.
    text.push_str("EVENT,E0,DERIVED_CMPD,c\n")?;
    let extended = read_extended(rt.alloc(), text.as_bytes(), "a")?;
    assert_eq!(rt; extended.events().len(), 256);
    text.push_str("EVENT,more,NOT_DERIVED,c\n")?;
    let fault = PresetFault::Row {
        row: 259,
        cause: PresetCause::OverLimit,
    };
    assert!(rt; read_extended(rt.alloc(), text.as_bytes(), "a").err() == Some(fault));
    Ok(())
}
