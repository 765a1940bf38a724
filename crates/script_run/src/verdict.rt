// How a call ends: its status and its text.
ghost use Rattle.std.specs.Prelude.{◌≡◌, ◌++◌, IfOk, OnErr, codes, decimal};
ghost use Rattle.script_texts.specs.Marks.{line_end};
ghost use Rattle.script_run.specs.Outcome.{line_cause_text, status_of, text_of};
ghost use Rattle.script_run.specs.Parts.{TakesMemory, Tells};

use crate::output::write_all;
use hudi_base::{Bytes, Sink};
use script_jobs::LineCause;
use std::alloc::{AllocError, Global};
use std::fmt::Write;

const OUTPUT_FAILED: u8 = 6;

/// The status for want of memory.
pub const OUT_OF_MEMORY: u8 = 8;

/// How a call ends, before its text is written.
#[derive(Drop)]
pub enum Verdict {
    /// The words aren't `run 1`.
    BadWords,
    /// The input failed.
    InputFailed,
    /// More came in than a script may have.
    TooLong,
    /// The line of this number is the first outside the language, for this cause.
    BadLine(u32, LineCause),
    /// The store failed before a job ran.
    StoreFailed,
    /// The store has files already.
    TableExists,
    /// The store has no file, and the script makes no table.
    NoTable,
    /// Memory was wanting outside a job: so much of the text was made.
    OutOfMemory(Bytes),
    /// All jobs ran, and none failed. This is to be printed.
    Ran(Bytes),
    /// All jobs ran, and one of them failed or found a damaged file.
    Failed(Bytes),
}

impl Verdict {
    /// The status with which the program ends.
    pub fn status(&self) -> u8
        ensures { result ≡ status_of self.now }
    {
        match self {
            Verdict::Ran(_) => 0,
            Verdict::Failed(_) => 1,
            Verdict::BadWords => 2,
            Verdict::TooLong | Verdict::BadLine(_, _) => 3,
            Verdict::StoreFailed => 4,
            Verdict::InputFailed => 5,
            Verdict::OutOfMemory(_) => OUT_OF_MEMORY,
            Verdict::TableExists | Verdict::NoTable => 9,
        }
    }

    /// The text that is written. The only error is want of memory.
    #[tactic(auto, unfolding(crate::specs::Outcome::text_of))]
    pub fn into_text(self, alloc: Global) -> Result<Bytes, AllocError>
        ensures text { IfOk result (λ text. text ≡ text_of self) }
        ensures memory { OnErr result (TakesMemory self) }
    {
        match self {
            Verdict::Ran(text) => Ok(text),
            Verdict::Failed(text) => Ok(text),
            Verdict::OutOfMemory(text) => Ok(text),
            Verdict::BadWords => Bytes::from_slice(alloc, b"usage: hudi DIR run LANES\n"),
            Verdict::TooLong => Bytes::from_slice(alloc, b"bad line 0 too_long\n"),
            Verdict::BadLine(number, cause) => bad_line_text(alloc, number, &cause),
            Verdict::TableExists => Bytes::from_slice(alloc, b"table exists\n"),
            Verdict::NoTable => Bytes::from_slice(alloc, b"no table\n"),
            Verdict::StoreFailed | Verdict::InputFailed => Ok(Bytes::from_vec(Vec::new(alloc))),
        }
    }
}

// The text that names a bad line.
fn bad_line_text(alloc: Global, number: u32, cause: &LineCause) -> Result<Bytes, AllocError>
    ensures { IfOk result (λ text.
        text ≡ codes "bad line " ++ decimal number ++ codes " " ++ line_cause_text cause.now ++ line_end) }
{
    let mut out = String::new(alloc);
    match cause {
        LineCause::Json => writeln!(out, "bad line {number} json")?,
        LineCause::Object => writeln!(out, "bad line {number} object")?,
        LineCause::Field(name) => {
            let name = name.as_str();
            writeln!(out, "bad line {number} field {name}")?
        }
        LineCause::InitPlace => writeln!(out, "bad line {number} init_place")?,
    }
    Ok(Bytes::from_vec(out.into_bytes()))
}

/// Writes the text of an end, and answers its status. Where memory is wanting for the text, nothing is written, and
/// the call ends for want of memory.
pub(crate) fn tell<O: Sink>(alloc: Global, verdict: Verdict, output: &mut O) -> u8
    ensures { Tells verdict result (O.state output.old) (O.state output.new) }
{
    let status = verdict.status();
    let Ok(text) = verdict.into_text(alloc) else {
        return OUT_OF_MEMORY;
    };
    if write_all(output, text.as_slice()) {
        status
    } else {
        OUTPUT_FAILED
    }
}
