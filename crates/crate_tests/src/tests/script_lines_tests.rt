//! A script with returns and empty lines, which no worked row can have.
use call_type::CallName;
use script_lines::read_script;
use std::test::Fail;

#[test]
fn two_calls(rt: HostRuntime) -> Result<(), Fail> {
    let text = b"# a set\n0 create\r\n\n 0\tadd 0 CYCLES";
    let script = read_script(rt.alloc(), text.as_slice())?;
    let lines = script.lines();
    assert_eq!(rt; lines.len(), 2);
    assert!(rt; lines[0].line == 2 && lines[0].call.name() == CallName::Create);
    assert!(rt; lines[1].line == 4 && lines[1].call.name() == CallName::Add);
    Ok(())
}
