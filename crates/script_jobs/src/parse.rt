// Reading a script.
ghost use Rattle.std.specs.Prelude.{◌≡◌, ◌≤◌, length, IfOk};
ghost use Rattle.std.specs.Str.Lines.{lines};
ghost use Rattle.serde_json.specs.View.{view};
ghost use Rattle.script_jobs.specs.Begun.{ReadsFault};
ghost use Rattle.script_jobs.specs.Drafts.{said_draft};
ghost use Rattle.script_jobs.specs.Scripts.{Reads, ReadsJob, job_in, most_script_bytes, said, said_job, said_script, script_of, whole, with_job, with_line};

use crate::draft::{Draft, job_of};
use crate::fault::Fault;
use crate::json_rows::JsonRows;
use crate::lines::first_line;
use crate::script::{Job, Jobs, LineCause, LineError, Phase, Script, What};
use hudi_base::{Name, Sequence};
use serde_json::Value;
use std::alloc::{AllocError, Global};
use table_forms::parse_json;

// The jobs of the lines so far.
#[derive(Drop)]
pub(crate) struct Begun {
    pub(crate) init: Option<Job>,
    pub(crate) jobs: Jobs,
}

// What a job does, with its line.
fn what_of(draft: Draft, line: Value) -> What
    ensures { said result ≡ said_draft (view line) draft }
{
    match draft {
        Draft::Init(props) => What::Init(props),
        Draft::Upsert => What::Upsert {
            rows: JsonRows::of_line(line),
        },
        Draft::Delete(keys) => What::Delete { keys },
        Draft::Snapshot(at) => What::Snapshot { at },
    }
}

// A fault of a line with this number.
fn line_error(alloc: Global, number: u32, fault: Fault<'_>) -> LineError
    ensures { ReadsFault number fault.entry result }
{
    match fault {
        Fault::Memory => LineError::Memory,
        Fault::Object => LineError::BadLine(number, LineCause::Object),
        Fault::Field(name) => match Name::from_text(alloc, name) {
            Ok(name) => LineError::BadLine(number, LineCause::Field(name)),
            Err(_) => LineError::Memory,
        },
    }
}

// The job of a line, which has this number.
#[tactic(auto, unfolding(crate::specs::Scripts::job_in))]
fn read_job(alloc: Global, lanes: u32, number: u32, text: &[u8]) -> Result<Job, LineError>
    ensures { ReadsJob number result (job_in lanes number text.now) }
{
    let Some(line) = parse_json(alloc, text)? else {
        return Err(LineError::BadLine(number, LineCause::Json));
    };
    match job_of(alloc, lanes, &line) {
        Ok((lane, draft)) => Ok(Job {
            line: number,
            lane,
            what: what_of(draft, line),
        }),
        Err(fault) => Err(line_error(alloc, number, fault)),
    }
}

impl Begun {
    ghost use Rattle.script_jobs.specs.Begun.{ReadsBegun, begun_view};

    // With a job more. One that makes the table is the first.
    fn with_job(self, number: u32, job: Job) -> Result<Begun, LineError>
        ensures { ReadsBegun number result (with_job (begun_view self) (said_job job)) }
    {
        let Begun { init, mut jobs } = self;
        match job.what {
            What::Init(_) if init.is_some() || !jobs.is_empty() => {
                Err(LineError::BadLine(number, LineCause::InitPlace))
            }
            What::Init(_) => Ok(Begun {
                init: Some(job),
                jobs,
            }),
            _ => {
                jobs.push(job)?;
                Ok(Begun { init, jobs })
            }
        }
    }

    // With the job of a line more.
    fn with_line(
        self,
        alloc: Global,
        lanes: u32,
        number: u32,
        line: &[u8],
    ) -> Result<Begun, LineError>
        ensures { ReadsBegun number result (with_line lanes number (begun_view self) line.now) }
    {
        match read_job(alloc, lanes, number, line) {
            Ok(job) => self.with_job(number, job),
            Err(error) => Err(error),
        }
    }

    // All jobs but the one that makes the table are one phase.
    fn whole(self, alloc: Global) -> Result<Script, AllocError>
        ensures { IfOk result (λ script. said_script script ≡ whole (begun_view self)) }
    {
        let Begun { init, jobs } = self;
        let mut phases = Sequence::new(alloc);
        phases.push(Phase { jobs })?;
        Ok(Script { init, phases })
    }
}

/// The script that bytes are, at most 67,108,864 of them, where so many lanes are open. A line feed ends a line, and
/// one carriage return before it goes with it; the last line needs no end. Empty lines count and are passed over.
///
/// `BadLine` comes exactly where a line is outside the language, with the number of the first such line and its first
/// cause. The only other error is want of memory.
#[tactic(auto, using(crate::proofs::ScriptParts::reading))]
pub fn parse_script(alloc: Global, bytes: &[u8], lanes: u32) -> Result<Script, LineError>
    requires { length bytes.now ≤ most_script_bytes }
    ensures { Reads result (script_of lanes (lines bytes.now)) }
{
    let mut begun = Begun {
        init: None,
        jobs: Sequence::new(alloc),
    };
    let mut number: u32 = 1;
    let mut rest = bytes;
    while let Some((line, after)) = first_line(rest) {
        rest = after;
        if !line.is_empty() {
            begun = begun.with_line(alloc, lanes, number, line)?;
        }
        number += 1;
    }
    Ok(begun.whole(alloc)?)
}
