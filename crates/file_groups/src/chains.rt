// Which files of a group are read at a time.
ghost use Rattle.std.specs.Prelude.{◌≡◌, ◌++◌, ◌∷◌, [], option_map, IfOk, OnOk, IfErr, filter, map};
ghost use Rattle.file_groups.specs.Chains.{newest_time, newest_base, is_after, log_number, part_of_base, part_of_log, base_first, IsChain};
ghost use Rattle.file_groups.specs.Orders.{IsSortedFrom};
ghost use Rattle.file_groups.specs.declared.view_error.ViewError.TheVariants.{Memory};

use crate::{BasePart, GroupView, LogPart, Part, ViewError};
use hudi_base::{InstantTime, Sequence};
use std::alloc::{AllocError, Global};

// The greatest time of a base file up to a time, in milliseconds; 0 where there is none.
fn newest_time(bases: &[BasePart], t: InstantTime) -> u64
    ensures { result ≡ newest_time t bases.now }
{
    let last = t.ms();
    bases
        .iter()
        .map(|base| base.time.ms())
        .filter(|time| *time <= last)
        .fold(0, |greatest, time| greatest.max(time))
}

// The newest base file up to a time.
#[tactic(auto, unfolding(crate::specs::Chains::newest_base))]
fn newest_base(bases: &[BasePart], t: InstantTime) -> Option<&BasePart>
    ensures { option_map (λ base. base.now) result ≡ newest_base t bases.now }
{
    let newest = newest_time(bases, t);
    bases.iter().find(|base| base.time.ms() == newest)
}

fn is_after(base: Option<&BasePart>, log: &LogPart) -> bool
    ensures { result ≡ is_after (option_map (λ base. base.now) base.entry) log.now }
{
    match base {
        Some(base) => base.time <= log.slice,
        None => true,
    }
}

// A number by which logs are in order of slice and version.
fn log_number(log: &LogPart) -> u128
    ensures { result ≡ log_number log.now }
{
    log.slice.ms() as u128 * 0x1_0000_0000_0000_0000 + log.version as u128
}

fn push_log(alloc: Global, log: &LogPart, logs: &mut Vec<LogPart>) -> Result<(), AllocError>
    ensures { OnOk result (logs.new.items ≡ logs.old.items ++ log.now ∷ []) }
{
    let copied = log.copy(alloc)?;
    logs.push(copied)?;
    Ok(())
}

// The logs of the base file's slice and of later ones.
fn logs_after(
    alloc: Global,
    base: Option<&BasePart>,
    logs: &[LogPart],
) -> Result<Vec<LogPart>, AllocError>
    ensures { IfOk result (λ after. after.items
        ≡ filter (is_after (option_map (λ base. base.now) base.entry)) logs.now) }
{
    let mut after = Vec::new(alloc);
    for log in logs {
        if is_after(base, log) {
            push_log(alloc, log, &mut after)?;
        }
    }
    Ok(after)
}

fn sort_logs(logs: &mut Vec<LogPart>) -> Result<(), AllocError>
    ensures { OnOk result (IsSortedFrom log_number logs.old.items logs.new.items) }
{
    logs.sort_by_key(|log| log_number(log))
}

fn part_of_base(alloc: Global, base: &BasePart) -> Result<Part, AllocError>
    ensures { IfOk result (λ part. part ≡ part_of_base base.now) }
{
    Ok(Part {
        name: base.name.copy(alloc)?,
        length: base.length,
        base: true,
    })
}

fn part_of_log(log: LogPart) -> Part
    ensures { result ≡ part_of_log log }
{
    Part {
        name: log.name,
        length: log.length,
        base: false,
    }
}

fn base_first(alloc: Global, base: Option<&BasePart>) -> Result<Sequence<Part>, AllocError>
    ensures { IfOk result (λ parts. parts ≡ base_first (option_map (λ base. base.now) base.entry)) }
{
    let mut parts = Sequence::new(alloc);
    if let Some(base) = base {
        parts.push(part_of_base(alloc, base)?)?;
    }
    Ok(parts)
}

fn push_logs(logs: Vec<LogPart>, parts: &mut Sequence<Part>) -> Result<(), AllocError>
    ensures { OnOk result (parts.new ≡ parts.old ++ map part_of_log logs.items) }
{
    for log in logs {
        parts.push(part_of_log(log))?;
    }
    Ok(())
}

/// The parts of a group at a time: the newest base file up to it, if there is one, and then each log whose slice is at
/// least that base file's time, by slice and version. Without a base file all logs are read. The only error is want of
/// memory.
pub fn chain(alloc: Global, view: &GroupView, t: InstantTime) -> Result<Sequence<Part>, ViewError>
    ensures chain { IfOk result (λ parts. IsChain view.now t parts) }
    ensures error { IfErr result (λ error. error ≡ Memory) }
{
    let base = newest_base(view.bases.as_slice(), t);
    let mut logs = logs_after(alloc, base, view.logs.as_slice())?;
    sort_logs(&mut logs)?;
    let mut parts = base_first(alloc, base)?;
    push_logs(logs, &mut parts)?;
    Ok(parts)
}
