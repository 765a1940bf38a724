// A file as a source and as a sink.
use crate::test_folder::{below, new_folder};
use hudi_base::{Got, Sent, Sink, Source};
use std::test::Fail;
use std::{fs, io};
use store_dir::{StdinSource, StdoutSink};

// Writes two pieces, and an empty one, by a sink.
fn written(rt: &HostRuntime, path: &str) -> io::Result<[Sent; 3]> {
    let mut sink = StdoutSink::new(fs::create(rt, path)?);
    Ok([sink.write(b"123"), sink.write(b""), sink.write(b"45")])
}

// Reads by a source into a buffer of four bytes, three times.
fn read(rt: &HostRuntime, path: &str) -> io::Result<([Got; 3], [u8; 4])> {
    let mut source = StdinSource::new(fs::open(rt, path)?);
    let mut buf = [0; 4];
    let first = source.read(&mut buf);
    let second = source.read(&mut buf);
    Ok(([first, second, source.read(&mut buf)], buf))
}

#[test]
fn bytes_go_out_and_come_in(rt: HostRuntime) -> Result<(), Fail> {
    let folder = new_folder(&rt, "streams")?;
    let path = below(rt.alloc(), &folder, "file")?;
    let sent = written(&rt, path.as_str())?;
    assert_eq!(rt; sent, [Sent::Took(3), Sent::Took(0), Sent::Took(2)]);
    let (got, buf) = read(&rt, path.as_str())?;
    assert_eq!(rt; got, [Got::Took(4), Got::Took(1), Got::Took(0)]);
    assert_eq!(rt; buf, *b"5234");
    fs::remove_dir_all(&rt, folder)?;
    Ok(())
}

// What a sink answers over a file that is open for reading, and a source over one that is open for writing.
fn swapped(rt: &HostRuntime, path: &str) -> io::Result<(Sent, Got)> {
    let mut source = StdinSource::new(fs::create(rt, path)?);
    let mut sink = StdoutSink::new(fs::open(rt, path)?);
    Ok((sink.write(b"1"), source.read(&mut [0])))
}

#[test]
fn streams_fail(rt: HostRuntime) -> Result<(), Fail> {
    let folder = new_folder(&rt, "failing_streams")?;
    let path = below(rt.alloc(), &folder, "file")?;
    assert_eq!(rt; swapped(&rt, path.as_str())?, (Sent::Failed, Got::Failed));
    // Memory that is full takes no byte.
    let mut full = [];
    let mut sink = StdoutSink::new(full.as_mut_slice());
    assert_eq!(rt; sink.write(b"1"), Sent::Failed);
    assert_eq!(rt; sink.write(b""), Sent::Took(0));
    fs::remove_dir_all(&rt, folder)?;
    Ok(())
}
