//! A region script with returns and empty lines, which no worked row can have.

use region_report::read_regions;
use std::fmt::Write;
use std::test::Fail;

#[test]
fn lines_of_two_threads(rt: HostRuntime) -> Result<(), Fail> {
    let text =
        "# a script\n0 begin outer\n63\tbegin  x-1_Y\r\n\n0 run 4294967295\n63 end x-1_Y\n0 read outer\n0 end outer";
    let regions = read_regions(rt.alloc(), text.as_bytes())?;
    let mut told = String::new(rt.alloc());
    for line in regions.lines() {
        let reading = if line.is_reading() { " reading" } else { "" };
        write!(told, "{} {}{reading}, ", line.line, line.thread)?;
    }
    let expected = "2 0 reading, 3 63 reading, 5 0, 6 63 reading, 7 0 reading, 8 0 reading, ";
    assert_eq!(rt; told.as_str(), expected);
    Ok(())
}
