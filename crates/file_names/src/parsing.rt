// The file of a name.
ghost use Rattle.std.specs.Prelude.{IsTrue, ◌↔◌, IfOk};
ghost use Rattle.hudi_base.specs.InstantTime.{IsTime};
ghost use Rattle.file_names.specs.FileName.{IsGroup, IsToken, IsNamed, IsRead};

use crate::candidate::candidate;
use crate::{FileName, NameError, Token, text};
use hudi_base::{GroupRef, InstantTime, Name};
use std::alloc::Global;
use table_forms::is_partition_path;

fn is_group(group: &GroupRef) -> bool
    ensures { IsTrue result ↔ IsGroup group.now }
{
    let _lo = group.lo;
    let _hi = group.hi;
    let _born = group.born.ms();
    is_partition_path(group.partition.as_slice())
}

fn is_token(_token: Token) -> bool
    ensures { IsTrue result ↔ IsToken _token }
{
    true
}

fn is_time(t: InstantTime) -> bool
    ensures { IsTrue result ↔ IsTime t }
{
    let _ms = t.ms();
    true
}

// Whether the file has a name: its partition has the form of one, and a version is at least 1.
fn is_named(file: &FileName) -> bool
    ensures { IsTrue result ↔ IsNamed file.now }
{
    match file {
        FileName::Instant(t, _, _) => is_time(*t),
        FileName::Base(group, token, t) => is_group(group) && is_token(*token) && is_time(*t),
        FileName::Log(group, slice, version, token) => is_group(group)
            && is_time(*slice)
            && *version >= 1
            && is_token(*token),
        FileName::Properties => true,
        FileName::Other => false,
    }
}

/// The file of this table whose name it is, and `Other` where it is the name of none. The tail of a file id has to be
/// that of this table and the partition.
pub fn parse_name(alloc: Global, table: &Name, name: &Name) -> Result<FileName, NameError>
    ensures { IfOk result (λ file. IsRead table.now name.now file) }
{
    let Some(file) = candidate(alloc, name.as_slice())? else {
        return Ok(FileName::Other);
    };
    if !is_named(&file) {
        return Ok(FileName::Other);
    }
    let own = text(alloc, table, &file)?;
    if own != *name {
        return Ok(FileName::Other);
    }
    Ok(file)
}
