// The logs of a group.
ghost use Rattle.std.specs.Prelude.{◌≡◌, ◌≤◌, ◌++◌, length, IfOk, OnOk};
ghost use Rattle.std.specs.List.{flat_map};
ghost use Rattle.table_query.specs.GroupReading.{log_of, logs_of, target_of, voided};
ghost use Rattle.table_query.specs.Parts.{GivesLog, GivesLogs, IsStop, text_at};

use hudi_base::{Bytes, InstantTime, Name, Sequence};
use log_block::Block;
use log_scan::{ScanError, scan};
use std::alloc::{AllocError, Global};
use table_core::JobReply;
use table_history::{Cause, Part};

/// A log of a view with its blocks.
#[derive(Drop)]
pub struct PartLog {
    pub name: Name,
    pub blocks: Sequence<Block>,
}

// The answer of a part that has no reading.
pub(crate) fn damaged(alloc: Global, name: &Name, cause: Cause, place: u64) -> JobReply
    ensures { IsStop result (record { name = name.now; cause = cause; place = place }) }
{
    match name.copy(alloc) {
        Ok(name) => JobReply::Damaged(name, cause, place),
        Err(_) => JobReply::Memory,
    }
}

// The log of a part.
fn log_of(alloc: Global, part: &Part, bytes: &Bytes) -> Result<PartLog, JobReply>
    ensures { GivesLog result (log_of part.now bytes.now) }
{
    if part.base {
        return Err(damaged(alloc, &part.name, Cause::Base, 0));
    }
    match scan(alloc, bytes.as_slice()) {
        Ok(found) => match part.name.copy(alloc) {
            Ok(name) => Ok(PartLog {
                name,
                blocks: found.blocks,
            }),
            Err(_) => Err(JobReply::Memory),
        },
        Err(ScanError::BadLog(at)) => Err(damaged(alloc, &part.name, Cause::Log, at)),
        Err(ScanError::Memory) => Err(JobReply::Memory),
    }
}

/// The logs of parts, whose bytes these are.
pub(crate) fn logs_of(
    alloc: Global,
    parts: &[Part],
    texts: &[Bytes],
) -> Result<Sequence<PartLog>, JobReply>
    requires { length parts.now ≤ length texts.now }
    ensures { GivesLogs result (logs_of (text_at texts.now) 0 parts.now) }
{
    let mut logs = Sequence::new(alloc);
    for (i, part) in parts.iter().enumerate() {
        let log = match log_of(alloc, part, &texts[i]) {
            Ok(log) => log,
            Err(reply) => return Err(reply),
        };
        let Ok(()) = logs.push(log) else {
            return Err(JobReply::Memory);
        };
    }
    Ok(logs)
}

// The targets of the rollback blocks among blocks.
fn push_targets(blocks: &[Block], targets: &mut Vec<InstantTime>) -> Result<(), AllocError>
    ensures { OnOk result (targets.new.items ≡ targets.old.items ++ flat_map target_of blocks.now) }
{
    for block in blocks {
        if let Block::Rollback { target, .. } = block {
            targets.push(*target)?;
        }
    }
    Ok(())
}

/// The instants that the logs' rollback blocks void.
pub(crate) fn voided(alloc: Global, logs: &[PartLog]) -> Result<Vec<InstantTime>, AllocError>
    ensures { IfOk result (λ targets. targets.items ≡ voided logs.now) }
{
    let mut targets = Vec::new(alloc);
    for log in logs {
        push_targets(log.blocks.as_slice(), &mut targets)?;
    }
    Ok(targets)
}
