// Scripts: upserts and snapshots in any order, each a line of JSON.
ghost use Rattle.std.specs.Prelude.{◌≡◌, ◌≤◌, length};
ghost use Rattle.std.specs.Str.Lines.{lines};
ghost use Rattle.job_script.specs.Script.{Reads, most_script_bytes, script_of};
ghost use Rattle.job_script.specs.declared.script.ScriptError.TheVariants.{Memory};

use crate::lines::first_line;
use crate::values::read_line;
use hudi_base::{Bytes, Sequence};
use std::alloc::{AllocError, Global};

/// A row as it came in: its key (1 to 1,000 bytes), its rank and its body (at most 65,536 bytes).
#[derive(Drop)]
pub struct InputRow {
    pub key: Bytes,
    pub rank: i64,
    pub body: Bytes,
}

/// A line of a script. An upsert has 1 to 100,000 rows.
#[derive(Drop)]
pub enum Line {
    Upsert(Sequence<InputRow>),
    Snapshot,
}

/// A job of a script: the number of its line, from 1, and what the line says.
#[derive(Drop)]
pub struct ScriptJob {
    pub number: u32,
    pub line: Line,
}

/// Why there is no script: want of memory, or the number of the first line outside the language.
#[derive(Clone, Copy, Debug, PartialEq, Eq)]
pub enum ScriptError {
    Memory,
    BadLine(u32),
}

impl From<AllocError> for ScriptError {
    ghost from_gives = { λ _ error. error ≡ Memory };

    fn from(_: AllocError) -> ScriptError {
        ScriptError::Memory
    }
}

/// The jobs that the bytes of a script are, in order, or the number of the first line that is none. Empty lines count
/// and are passed over. There are at most 67,108,864 bytes.
#[tactic(auto, using(crate::proofs::ScriptParts::reading), unfolding(crate::specs::Script::script_of))]
pub fn parse_script(alloc: Global, bytes: &[u8]) -> Result<Sequence<ScriptJob>, ScriptError>
    requires { length bytes.now ≤ most_script_bytes }
    ensures { Reads result (script_of 1 (lines bytes.now)) }
{
    let mut jobs = Sequence::new(alloc);
    let mut number: u32 = 1;
    let mut rest = bytes;
    while let Some((line, after)) = first_line(rest) {
        rest = after;
        if !line.is_empty() {
            match read_line(alloc, line)? {
                Some(line) => jobs.push(ScriptJob { number, line })?,
                None => return Err(ScriptError::BadLine(number)),
            }
        }
        number += 1;
    }
    Ok(jobs)
}
