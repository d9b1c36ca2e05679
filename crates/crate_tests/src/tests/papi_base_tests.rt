//! The outside in memory, each call that takes memory once.
use papi_base::{
    Bytes, Ending, Files, MemFiles, MemSink, OpenFail, SureFiles, SureSink, Text, WholeFault,
    WriteFail, read_whole, write_whole,
};
use std::alloc::{AllocError, Global};
use std::test::Fail;

// Two files, of which the second ends by a fault.
fn two_files(alloc: Global, failing: Vec<u64>) -> Result<MemFiles, AllocError> {
    let mut tapes = Vec::new(alloc);
    tapes.push((
        String::from_str(alloc, "good")?,
        b"0123456789".to_vec(alloc)?,
        Ending::End,
    ))?;
    tapes.push((
        String::from_str(alloc, "bad")?,
        b"0123".to_vec(alloc)?,
        Ending::Fault,
    ))?;
    Ok(MemFiles::new(alloc, tapes, 3, failing))
}

#[test]
fn files_in_memory(rt: HostRuntime) -> Result<(), Fail> {
    let alloc = rt.alloc();
    let mut files = two_files(alloc, vec![in alloc; 2]?)?;
    let mut source = files.open_source("good")?;
    assert_eq!(rt;
        read_whole(alloc, &mut source, 10)?.as_slice(),
        b"0123456789".as_slice()
    );
    files.close_source(source);
    assert_eq!(rt; files.open_source("bad").err(), Some(OpenFail::Failed));
    let mut source = files.open_source("bad")?;
    assert_eq!(rt;
        read_whole(alloc, &mut source, 4).err(),
        Some(WholeFault::Failed)
    );
    files.close_source(source);
    let mut source = files.open_source("bad")?;
    assert_eq!(rt;
        read_whole(alloc, &mut source, 3).err(),
        Some(WholeFault::TooLarge)
    );
    files.close_source(source);
    assert_eq!(rt; files.open_source("none").err(), Some(OpenFail::Absent));
    Ok(())
}

#[test]
fn sure_files(rt: HostRuntime) -> Result<(), Fail> {
    let alloc = rt.alloc();
    let mut tapes = Vec::new(alloc);
    tapes.push((String::from_str(alloc, "a")?, b"bytes".to_vec(alloc)?))?;
    let mut files = SureFiles::new(alloc, tapes, 1);
    let mut source = files.open_source("a")?;
    let bytes = Bytes::new(read_whole(alloc, &mut source, 5)?);
    let mut sink = SureSink::new(alloc);
    write_whole(&mut sink, bytes.as_slice())?;
    assert_eq!(rt; sink.bytes(), b"bytes".as_slice());
    Ok(())
}

#[test]
fn sinks(rt: HostRuntime) -> Result<(), Fail> {
    let alloc = rt.alloc();
    let text = Text::copy_of(alloc, "0123")?;
    let mut bytes = Bytes::new(text.as_bytes().to_vec(alloc)?);
    bytes.append(b"45")?;
    let mut sink = MemSink::new(alloc, 5);
    assert_eq!(rt;
        write_whole(&mut sink, bytes.as_slice()).err(),
        Some(WriteFail::Failed)
    );
    assert_eq!(rt; sink.bytes(), b"01234".as_slice());
    Ok(())
}
