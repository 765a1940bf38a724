// What a source, a sink and a clock in memory answer, as tables of calls.
ghost use Rattle.std.specs.Prelude.{◌<◌};

use hudi_base::{Bytes, Clock, Got, Sent, Sequence, Sink, Source};
use std::alloc::{AllocError, Global};
use std::test::Fail;
use store_mem::{MemClock, MemSink, MemSource};

// How many calls and failures there were.
type Counts = (u64, u64);

// A read into a buffer of three bytes: the answer that it must give, and what must be in the buffer and left then.
type Read<'a> = (Got, &'a [u8; 3], &'a str);

// A write: the piece, the answer that it must give, and what must be written then.
type Write<'a> = (&'a str, Sent, &'a str);

// A source of these bytes that fails at the calls of these numbers.
fn source_of(
    alloc: Global,
    text: &str,
    most: usize,
    failing: &[u64],
) -> Result<MemSource, AllocError>
    requires { 0 < most }
{
    let bytes = Bytes::from_slice(alloc, text.as_bytes())?;
    let failing = Sequence::from_vec(Vec::from_slice(alloc, failing)?);
    Ok(MemSource::new(bytes, most, failing))
}

// A sink with room for so many bytes that fails at the calls of these numbers.
fn sink_of(
    alloc: Global,
    capacity: usize,
    most: usize,
    failing: &[u64],
) -> Result<MemSink, AllocError>
    requires { 0 < most }
{
    let failing = Sequence::from_vec(Vec::from_slice(alloc, failing)?);
    MemSink::new(alloc, capacity, most, failing)
}

// What the source has counted after these reads, where each is as it must be.
fn counts_of_reads(mut source: MemSource, reads: &[Read<'_>]) -> Option<Counts> {
    let mut buf = [b'-'; 3];
    for &(answer, room, left) in reads {
        if source.read(&mut buf) != answer
            || buf != *room
            || source.bytes_left() != left.as_bytes()
        {
            return None;
        }
    }
    Some((source.calls(), source.faults()))
}

// What the sink has counted after these writes, where each is as it must be.
fn counts_of_writes(mut sink: MemSink, writes: &[Write<'_>]) -> Option<Counts> {
    for &(piece, answer, written) in writes {
        if sink.write(piece.as_bytes()) != answer || sink.written() != written.as_bytes() {
            return None;
        }
    }
    Some((sink.calls(), sink.faults()))
}

// Whether a clock shows each time that it is set to.
fn shows_all(times: &[i64]) -> bool {
    let mut clock = MemClock::at(-5);
    if clock.now() != -5 {
        return false;
    }
    for &time in times {
        clock.set(time);
        if clock.now() != time {
            return false;
        }
    }
    true
}

#[test]
fn source_gives_a_byte_a_call(rt: HostRuntime) -> Result<(), Fail> {
    let reads = [
        (Got::Took(1), b"a--", "bc"),
        (Got::Failed, b"a--", "bc"),
        (Got::Took(1), b"b--", "c"),
        (Got::Took(1), b"c--", ""),
        (Got::Took(0), b"c--", ""),
    ];
    let source = source_of(rt.alloc(), "abc", 1, &[1])?;
    assert!(rt; counts_of_reads(source, &reads) == Some((5, 1)));
    Ok(())
}

#[test]
fn source_gives_what_there_is_room_for(rt: HostRuntime) -> Result<(), Fail> {
    let reads = [(Got::Took(3), b"abc", "de"), (Got::Took(2), b"dec", "")];
    let source = source_of(rt.alloc(), "abcde", 9, &[])?;
    assert!(rt; counts_of_reads(source, &reads) == Some((2, 0)));
    Ok(())
}

#[test]
fn sink_takes_a_byte_a_call(rt: HostRuntime) -> Result<(), Fail> {
    let writes = [
        ("abc", Sent::Took(1), "a"),
        ("bc", Sent::Failed, "a"),
        ("bc", Sent::Took(1), "ab"),
        ("c", Sent::Took(1), "abc"),
        ("", Sent::Took(0), "abc"),
    ];
    let sink = sink_of(rt.alloc(), 3, 1, &[1])?;
    assert!(rt; counts_of_writes(sink, &writes) == Some((5, 1)));
    Ok(())
}

#[test]
fn sink_fails_where_its_room_is_full(rt: HostRuntime) -> Result<(), Fail> {
    let writes = [
        ("abc", Sent::Took(3), "abc"),
        ("def", Sent::Took(2), "abcde"),
        ("f", Sent::Failed, "abcde"),
        ("", Sent::Took(0), "abcde"),
        ("f", Sent::Failed, "abcde"),
    ];
    let sink = sink_of(rt.alloc(), 5, 9, &[])?;
    assert!(rt; counts_of_writes(sink, &writes) == Some((5, 2)));
    Ok(())
}

#[test]
fn clock_stands_where_it_is_set(rt: HostRuntime) {
    assert!(rt; shows_all(&[-9, 3, 3, i64::MIN, i64::MAX]));
}
