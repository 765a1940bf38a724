// Names that are a timeline, and names that aren't; instants from their first file to their last.
use file_names::Action::{self, Clean, Compaction, Delta, Replace, Rollback};
use file_names::FileName;
use file_names::State::{self, Completed, Inflight, Requested};
use hudi_base::InstantTime;
use instant_line::{LineError, Timeline, from_names};
use std::alloc::{AllocError, Global};
use std::test::Fail;

// A file of the timeline: so many milliseconds after the first time, what the instant does, and the file's state.
type File = (u64, Action, State);

fn time(number: u64) -> Result<InstantTime, Fail> {
    let ms = 946_684_800_000u64.saturating_add(number);
    Ok(InstantTime::from_ms(ms).ok_or("no time")?)
}

fn push_name(file: &File, names: &mut Vec<FileName>) -> Result<(), Fail> {
    let t = time(file.0)?;
    names.push(FileName::Instant(t, file.1, file.2))?;
    Ok(())
}

fn names_of(alloc: Global, files: &[File]) -> Result<Vec<FileName>, Fail> {
    let mut names = Vec::new(alloc);
    for file in files {
        push_name(file, &mut names)?;
    }
    Ok(names)
}

fn number(t: InstantTime) -> u64 {
    t.ms().saturating_sub(946_684_800_000)
}

// The completed instants, and behind a bar the pending ones.
fn line_text(alloc: Global, line: &Timeline) -> Result<String, AllocError> {
    let mut text = String::new(alloc);
    for (t, action) in line.completed() {
        push_completed(*t, *action, &mut text, alloc)?;
    }
    text.push_str("|")?;
    for (t, action, state) in line.pending() {
        push_pending(*t, *action, *state, &mut text, alloc)?;
    }
    Ok(text)
}

fn push_completed(
    t: InstantTime,
    action: Action,
    text: &mut String,
    alloc: Global,
) -> Result<(), AllocError> {
    let number = number(t);
    let instant = format!(in alloc; "{number} {action:?} ")?;
    text.push_str(instant.as_str())
}

fn push_pending(
    t: InstantTime,
    action: Action,
    state: State,
    text: &mut String,
    alloc: Global,
) -> Result<(), AllocError> {
    let number = number(t);
    let instant = format!(in alloc; " {number} {action:?} {state:?}")?;
    text.push_str(instant.as_str())
}

// What these files' names are: the timeline, or the place of the first that breaks it.
fn told(alloc: Global, files: &[File]) -> Result<String, Fail> {
    let names = names_of(alloc, files)?;
    match from_names(alloc, &names) {
        Ok(line) => Ok(line_text(alloc, &line)?),
        Err(LineError::BrokenTimeline(i)) => Ok(format!(in alloc; "broken {i}")?),
        Err(LineError::Memory) => Err("memory")?,
    }
}

const TIMELINES: [(&[File], &str); 14] = [
    (&[], "|"),
    (&[(1, Delta, Requested)], "| 1 Delta Requested"),
    (
        &[(1, Clean, Inflight), (1, Clean, Requested)],
        "| 1 Clean Inflight",
    ),
    // In any order.
    (
        &[
            (7, Compaction, Inflight),
            (2, Rollback, Requested),
            (7, Compaction, Completed),
            (1, Replace, Inflight),
            (7, Compaction, Requested),
            (1, Replace, Requested),
        ],
        "7 Compaction | 1 Replace Inflight 2 Rollback Requested",
    ),
    // A completed file without its inflight one, and an inflight one without its requested one.
    (&[(1, Delta, Requested), (1, Delta, Completed)], "broken 1"),
    (&[(1, Delta, Inflight)], "broken 0"),
    (&[(3, Delta, Inflight), (3, Delta, Completed)], "broken 0"),
    (
        &[(3, Compaction, Requested), (3, Compaction, Completed)],
        "broken 1",
    ),
    // Two actions of one time: the name that comes later.
    (
        &[(5, Rollback, Requested), (5, Clean, Requested)],
        "broken 0",
    ),
    (
        &[(5, Delta, Requested), (5, Replace, Requested)],
        "broken 1",
    ),
    // The first in the order of the names, and of one name the first.
    (&[(9, Delta, Inflight), (3, Delta, Inflight)], "broken 1"),
    (&[(4, Delta, Inflight), (4, Delta, Completed)], "broken 0"),
    (&[(8, Clean, Completed), (8, Clean, Completed)], "broken 0"),
    (
        &[(1, Delta, Requested), (1, Delta, Requested)],
        "| 1 Delta Requested",
    ),
];

#[test]
fn names_are_timelines(rt: HostRuntime) -> Result<(), Fail> {
    for (files, text) in TIMELINES {
        assert_eq!(rt; told(rt.alloc(), files)?.as_str(), text);
    }
    Ok(())
}

// The next state of an instant: a new one is requested.
fn advance(line: &mut Timeline, t: InstantTime, action: Action) -> Result<(), Fail> {
    line.reserve()?;
    match line.find(t) {
        None => line.move_to(t, action, Requested),
        Some((own, Requested)) => line.move_to(t, own, Inflight),
        Some((own, Inflight)) => line.move_to(t, own, Completed),
        Some((_, Completed)) => return Err("completed")?,
    }
    Ok(())
}

fn go_back(line: &mut Timeline, t: InstantTime) -> Result<(), Fail> {
    match line.find(t) {
        Some((_, Requested)) => line.take_back(t),
        Some((_, Inflight)) => line.take_back(t),
        _ => return Err("not pending")?,
    }
    Ok(())
}

// Each instant's number, and whether it goes on or back.
const STEPS: [(u64, bool, &str); 11] = [
    (5, true, "| 5 Delta Requested"),
    (3, true, "| 3 Delta Requested 5 Delta Requested"),
    (5, true, "| 3 Delta Requested 5 Delta Inflight"),
    (5, true, "5 Delta | 3 Delta Requested"),
    (3, true, "5 Delta | 3 Delta Inflight"),
    (4, true, "5 Delta | 3 Delta Inflight 4 Delta Requested"),
    (3, false, "5 Delta | 3 Delta Requested 4 Delta Requested"),
    (4, false, "5 Delta | 3 Delta Requested"),
    (3, true, "5 Delta | 3 Delta Inflight"),
    (3, true, "3 Delta 5 Delta |"),
    (6, true, "3 Delta 5 Delta | 6 Delta Requested"),
];

fn step(line: &mut Timeline, number: u64, forth: bool) -> Result<(), Fail> {
    let t = time(number)?;
    if forth {
        advance(line, t, Delta)
    } else {
        go_back(line, t)
    }
}

#[test]
fn instants_move_and_go_back(rt: HostRuntime) -> Result<(), Fail> {
    let mut line = from_names(rt.alloc(), &[])?;
    for (number, forth, text) in STEPS {
        step(&mut line, number, forth)?;
        assert_eq!(rt; line_text(rt.alloc(), &line)?.as_str(), text);
    }
    Ok(())
}

// All files of so many completed instants, the latest first.
fn long_names(alloc: Global, count: u64) -> Result<Vec<FileName>, Fail> {
    let mut names = Vec::new(alloc);
    for number in (0..count).rev() {
        push_instant(number, &mut names)?;
    }
    Ok(names)
}

fn push_instant(number: u64, names: &mut Vec<FileName>) -> Result<(), Fail> {
    push_name(&(number, Delta, Requested), names)?;
    push_name(&(number, Delta, Inflight), names)?;
    push_name(&(number, Delta, Completed), names)
}

// Of the timeline that so many completed instants are, and as many begun together and then finished one by one: how many
// are completed, and how many pending.
fn finished(alloc: Global, count: u64) -> Result<(usize, usize), Fail> {
    let mut line = from_names(alloc, &long_names(alloc, count)?)?;
    for number in count..count.saturating_mul(2) {
        advance(&mut line, time(number)?, Delta)?;
    }
    for number in count..count.saturating_mul(2) {
        finish(&mut line, number)?;
    }
    Ok((line.completed().len(), line.pending().len()))
}

fn finish(line: &mut Timeline, number: u64) -> Result<(), Fail> {
    advance(line, time(number)?, Delta)?;
    advance(line, time(number)?, Delta)
}

// More than 65,536 names of one folder, and then as many instants at once. In the square of that it wouldn't end in time.
#[test]
fn long_timelines_are_read_and_moved(rt: HostRuntime) -> Result<(), Fail> {
    assert_eq!(rt; finished(rt.alloc(), 21_846)?, (43_692, 0));
    Ok(())
}
