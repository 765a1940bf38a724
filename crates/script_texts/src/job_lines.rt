// The lines of jobs.
ghost use Rattle.std.specs.Prelude.{◌≡◌, ◌++◌, codes, decimal, OnOk, OnErr};
ghost use Rattle.script_jobs.specs.Scripts.{said, said_job};
ghost use Rattle.script_texts.specs.Putting.{Puts};
ghost use Rattle.script_texts.specs.Texts.{HasOwnRows, job_name, job_text, made_text};

use crate::answers::put_answer;
use crate::putting::put_text;
use row_codec::FlatCodec;
use script_jobs::{Job, What};
use std::alloc::{AllocError, Global};
use table_core::JobReply;

/// Adds the line of a job and its answer at the end of a text. The rows of the answer are rows of the codec's table. The
/// only error is want of memory, and then the text is as it was.
pub fn put_job_text(
    alloc: Global,
    out: &mut Vec<u8>,
    codec: &FlatCodec,
    job: &Job,
    reply: &JobReply,
) -> Result<(), AllocError>
    requires { HasOwnRows codec.now.records.own reply.now }
    ensures ok { OnOk result
        (out.new.items ≡ out.old.items ++ job_text codec.now.records.own (said_job job.now) reply.now) }
    ensures err { OnErr result (out.new.items ≡ out.old.items) }
{
    let before = out.len();
    match put_line(alloc, out, codec, job, reply) {
        Ok(()) => Ok(()),
        Err(error) => {
            out.truncate(before);
            Err(error)
        }
    }
}

/// Adds the line of the job that made the table, which stands in this line of the script. The only error is want of
/// memory, and then the text is as it was.
pub fn put_made_text(alloc: Global, out: &mut Vec<u8>, line: u32) -> Result<(), AllocError>
    ensures ok { OnOk result (out.new.items ≡ out.old.items ++ made_text line) }
    ensures err { OnErr result (out.new.items ≡ out.old.items) }
{
    let text = format!(in alloc; "{line} init made\n")?;
    out.extend_from_slice(text.as_str().as_bytes())
}

// Adds the line of a job and its answer.
fn put_line(
    alloc: Global,
    out: &mut Vec<u8>,
    codec: &FlatCodec,
    job: &Job,
    reply: &JobReply,
) -> Result<(), AllocError>
    requires { HasOwnRows codec.now.records.own reply.now }
    ensures { Puts result out.old.items out.new.items
        (job_text codec.now.records.own (said_job job.now) reply.now) }
{
    put_name(alloc, out, job)?;
    put_answer(alloc, out, codec, reply)?;
    put_text(out, "\n")
}

// Adds the line and the name of a job.
fn put_name(alloc: Global, out: &mut Vec<u8>, job: &Job) -> Result<(), AllocError>
    ensures { Puts result out.old.items out.new.items
        (decimal job.now.line ++ codes " " ++ job_name (said job.now.what) ++ codes " ") }
{
    let line = job.line;
    let name = job_name(&job.what);
    let text = format!(in alloc; "{line} {name} ")?;
    put_text(out, text.as_str())
}

// What a job is called.
fn job_name(what: &What) -> &'static str
    ensures { result.now ≡ job_name (said what.now) }
{
    match what {
        What::Init(_) => "init",
        What::Upsert { .. } => "upsert",
        What::Delete { .. } => "delete",
        What::Snapshot { .. } => "snapshot",
    }
}
