// Scripts and their jobs, and why a line is none.
use crate::json_rows::JsonRows;
use hudi_base::{InstantTime, Name, Sequence};
use std::alloc::AllocError;
use table_jobs::DelKeys;
use table_props::Props;

/// What a job does.
#[derive(Drop)]
pub enum What {
    /// Makes a table with these properties.
    Init(Props),
    /// Writes 1 to 100,000 rows.
    Upsert { rows: JsonRows },
    /// Deletes 1 to 100,000 keys.
    Delete { keys: DelKeys },
    /// Reads the rows at a time, or the latest ones.
    Snapshot { at: Option<InstantTime> },
}

/// A job of a script: the number of its line, from 1, and its lane, from 1.
#[derive(Drop)]
pub struct Job {
    pub line: u32,
    pub lane: u32,
    pub what: What,
}

/// Jobs, in the order of their lines.
pub type Jobs = Sequence<Job>;

/// The jobs that may run beside each other. None of them makes the table.
#[derive(Drop)]
pub struct Phase {
    pub jobs: Jobs,
}

/// Phases, one after another.
pub type Phases = Sequence<Phase>;

/// A script: the job that makes the table, if there is one, and then the phases.
#[derive(Drop)]
pub struct Script {
    pub init: Option<Job>,
    pub phases: Phases,
}

/// Why a line is outside the language. The first cause in this order counts.
#[derive(Drop)]
pub enum LineCause {
    /// It is no JSON in UTF-8, or nested deeper than 127 levels.
    Json,
    /// It is JSON, but no object.
    Object,
    /// The member of this name is wrong, missing or unknown. Members are tried in the order `job`, `lane`, those of the
    /// job, and unknown ones in byte order.
    Field(Name),
    /// It makes a table, and isn't the first job.
    InitPlace,
}

/// Why bytes are no script.
#[derive(Drop)]
pub enum LineError {
    /// There was not enough memory.
    Memory,
    /// The number of the first line outside the language, from 1, and why it is.
    BadLine(u32, LineCause),
}

impl From<AllocError> for LineError {
    ghost use Rattle.std.specs.Prelude.{◌≡◌};
    ghost use Rattle.script_jobs.specs.declared.script.LineError.TheVariants.{Memory};

    ghost from_gives = { λ _ error. error ≡ Memory };

    fn from(_: AllocError) -> LineError {
        LineError::Memory
    }
}
