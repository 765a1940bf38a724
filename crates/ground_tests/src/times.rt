// Times by `date -u`, and texts that are of none.
ghost use Rattle.std.specs.Prelude.{◌≡◌, Ok};

use hudi_base::{BadTime, InstantTime, TimeOver, times_and_texts_agree};

// A caller that reads what it wrote.
fn read_back(time: InstantTime) -> Result<InstantTime, BadTime>
    ensures { result ≡ Ok time }
{
    times_and_texts_agree();
    let _in_range = time.ms();
    InstantTime::parse(&time.text())
}

// Whether a time has this text, which is read as that time.
fn has_text(ms: u64, text: &[u8; 17]) -> bool {
    match InstantTime::from_ms(ms) {
        Some(time) => {
            time.text() == *text
                && InstantTime::parse(text) == Ok(time)
                && read_back(time) == Ok(time)
        }
        None => false,
    }
}

// The time that is drawn after the last one when the clock shows `now`, or nothing where either is none.
fn time_drawn(last: u64, now: i64) -> Option<u64> {
    let last = InstantTime::from_ms(last)?;
    match InstantTime::next_after(last, now) {
        Ok(time) => Some(time.ms()),
        Err(TimeOver) => None,
    }
}

#[test]
fn times_have_texts(rt: HostRuntime) {
    for (ms, text) in [
        (946_684_800_000, b"20000101000000000"),
        (951_782_400_007, b"20000229000000007"),
        (1_704_026_096_789, b"20231231123456789"),
        (1_704_067_200_000, b"20240101000000000"),
        (1_709_164_800_000, b"20240229000000000"),
        (1_709_251_199_999, b"20240229235959999"),
        (4_107_542_399_999, b"21000228235959999"),
        (4_107_542_400_000, b"21000301000000000"),
        (253_402_300_799_999, b"99991231235959999"),
    ] {
        assert!(rt; has_text(ms, text), "at {ms}");
    }
}

#[test]
fn other_texts_go_wrong(rt: HostRuntime) {
    for (text, offset) in [
        (b"2024010100000000".as_slice(), 16),
        (b"20241301000000000".as_slice(), 4),
        (b"20240001000000000".as_slice(), 4),
        (b"20230229000000000".as_slice(), 6),
        (b"21000229000000000".as_slice(), 6),
        (b"20240100000000000".as_slice(), 6),
        (b"19991231235959999".as_slice(), 0),
        (b"202401010000000000".as_slice(), 17),
        (b"".as_slice(), 0),
        (b"2024x10100000000".as_slice(), 4),
        (b"20240101000000000x".as_slice(), 17),
        (b"2024010100000000x".as_slice(), 16),
        (b"20240101240000000".as_slice(), 8),
        (b"20240101006000000".as_slice(), 10),
        (b"20240101000060000".as_slice(), 12),
    ] {
        assert!(rt;
            InstantTime::parse(text) == Err(BadTime(offset)),
            "at {offset}"
        );
    }
}

#[test]
fn times_have_ends(rt: HostRuntime) {
    for (ms, time) in [
        (946_684_799_999, None),
        (946_684_800_000, Some(InstantTime::FIRST)),
        (253_402_300_799_999, Some(InstantTime::LAST)),
        (253_402_300_800_000, None),
    ] {
        assert!(rt; InstantTime::from_ms(ms) == time, "at {ms}");
    }
}

#[test]
fn drawn_times_rise(rt: HostRuntime) {
    let first = 946_684_800_000;
    let end = 253_402_300_799_999;
    for (last, now, drawn) in [
        (first, 1_704_067_200_000, Some(1_704_067_200_000)),
        (first, -5, Some(first + 1)),
        (
            1_704_067_200_000,
            1_704_067_199_000,
            Some(1_704_067_200_001),
        ),
        (
            1_704_067_200_000,
            1_704_067_200_000,
            Some(1_704_067_200_001),
        ),
        (first, 253_402_300_800_000, Some(end)),
        (end, 0, None),
    ] {
        assert!(rt; time_drawn(last, now) == drawn, "after {last} at {now}");
    }
}
