// The names of files.
ghost use Rattle.std.specs.Prelude.{◌≡◌, ◌≢◌, IfOk};
ghost use Rattle.commit_meta.specs.Texts.{meta_bytes};
ghost use Rattle.file_names.specs.FileName.{name_of};
ghost use Rattle.file_names.specs.declared.file_name.Action.TheVariants.{Delta};
ghost use Rattle.file_names.specs.declared.file_name.FileName.TheVariants.{Other, Instant, Log};
ghost use Rattle.table_core.specs.ViewTables.{part_named};

use commit_meta::{Meta, meta_text};
use file_names::{Action, FileName, State, Token, text};
use hudi_base::{Bytes, InstantTime, Name, Target};
use std::alloc::{AllocError, Global};
use table_history::{LogFile, Op, Part};

fn name_of(alloc: Global, table: &Name, file: &FileName) -> Result<Name, AllocError>
    requires { file.now ≢ Other }
    ensures { IfOk result (λ name. name ≡ name_of table.now file.now) }
{
    match text(alloc, table, file) {
        Ok(name) => Ok(name),
        Err(_) => Err(AllocError),
    }
}

// The name of a log file of a slice.
pub(crate) fn log_name(
    alloc: Global,
    table: &Name,
    slice: &Target,
    version: u64,
    token: Token,
) -> Result<Name, AllocError>
    ensures { IfOk result (λ name. name ≡ name_of table.now (Log slice.now.group slice.now.slice version token)) }
{
    let group = slice.group.copy(alloc)?;
    name_of(
        alloc,
        table,
        &FileName::Log(group, slice.slice, version, token),
    )
}

// A log file as a part of a view.
pub(crate) fn part_of(
    alloc: Global,
    table: &Name,
    slice: &Target,
    log: &LogFile,
) -> Result<Part, AllocError>
    ensures { IfOk result (λ part. part ≡ part_named table.now slice.now log.now) }
{
    let token = Token {
        session: log.session,
        attempt: log.attempt,
    };
    Ok(Part {
        name: log_name(alloc, table, slice, log.version, token)?,
        length: log.length,
        base: false,
    })
}

fn text_of(alloc: Global, table: &Name, meta: &Meta) -> Result<Bytes, AllocError>
    ensures { IfOk result (λ bytes. bytes ≡ meta_bytes table.now meta.now) }
{
    match meta_text(alloc, table, meta) {
        Ok(bytes) => Ok(bytes),
        Err(_) => Err(AllocError),
    }
}

// The file of the timeline that marks a state of a deltacommit is made, with its metadata.
pub(crate) fn creation(
    alloc: Global,
    table: &Name,
    t: InstantTime,
    state: State,
    meta: &Meta,
) -> Result<Op, AllocError>
    ensures { IfOk result (λ op.
        op ≡ Op.Create (name_of table.now (Instant t Delta state)) (meta_bytes table.now meta.now)) }
{
    let name = name_of(alloc, table, &FileName::Instant(t, Action::Delta, state))?;
    Ok(Op::Create(name, text_of(alloc, table, meta)?))
}
