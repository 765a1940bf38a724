// Jobs of scripts on a table in memory.
ghost use Rattle.std.specs.Prelude.{◌≡◌, ◌≤◌, [], All, IfOk, IsTrue};
ghost use Rattle.job_script.specs.Rows.{AreSized, HasSizes, IsSized};
ghost use Rattle.plain_rows.specs.PlainValues.{IsPlainValue};
ghost use Rattle.upsert_writer.specs.BatchFits.{BatchFits};
ghost use Rattle.job_tests.specs.NewJobs.{IsNew, IsOfTable, are_given};

use avro_schema::Schema;
use hudi_base::{Gate, Name, Place, Sequence};
use job_script::{
    InputRow, Line, ScriptJob, parse_script, put_job_text, put_mark_text, scripts_have_sizes,
    value_of_input,
};
use plain_rows::PlainRows;
use std::alloc::{AllocError, Global};
use store_mem::{MemClock, MemStore};
use table_board::{Board, Solo};
use table_core::{Control, JobReply};
use table_history::Work;
use table_props::Props;
use table_query::snapshot;
use upsert_writer::{Batch, PutRow, PutRows, write_batch};

/// Jobs that may write anything.
#[derive(Drop)]
pub(crate) struct AnyWork {}

impl Work for AnyWork {
    ghost asks = { λ job slots. Unit {0} };

    ghost holds = { λ job t target writes bytes. Unit {0} };
}

/// A gate that holds nothing.
#[derive(Drop)]
pub(crate) struct Open {}

impl Gate for Open {
    fn at(&self, _lane: u32, _place: Place) {}
}

pub(crate) type MemBoard = Board<MemStore, MemClock, AnyWork>;

/// A table without instants over a store, at the beginning of 2024, whose partitions begin with so many groups.
pub(crate) fn fresh_over(
    alloc: Global,
    store: MemStore,
    buckets: u16,
) -> Result<MemBoard, AllocError>
    requires { (1 ≤ buckets) × (buckets ≤ 1024) }
    ensures { IfOk result (λ board. IsOfTable board.origin) }
{
    // No step looks at the schema.
    let props = Props {
        name: Name::from_text(alloc, "r1")?,
        schema: Schema::Null,
        key: 0,
        partition: 0,
        ordering: None,
        buckets,
    };
    let control = Control::fresh(alloc, props);
    let clock = MemClock::at(1_704_067_200_000);
    Ok(Board::new(alloc, store, clock, control))
}

/// Such a table with one group, over a store whose changing calls of these numbers fail.
pub(crate) fn fresh(
    alloc: Global,
    failing: Sequence<u64>,
    prefix: u64,
) -> Result<MemBoard, AllocError>
    ensures { IfOk result (λ board. IsOfTable board.origin) }
{
    fresh_over(alloc, MemStore::with_failures(alloc, failing, prefix), 1)
}

/// Whether the job of this line has made no entry.
pub(crate) fn is_new(board: &MemBoard, line: u32) -> bool
    ensures { IsTrue result → IsNew line board.now.entries }
{
    let marks = board.journal();
    for mark in marks {
        if mark.line == line {
            return false;
        }
    }
    true
}

/// Writes a batch as the job of a line.
pub(crate) fn write<G: Gate>(
    alloc: Global,
    board: MemBoard,
    codec: &PlainRows,
    line: u32,
    batch: Batch,
    gate: &G,
) -> (MemBoard, JobReply)
    requires new { IsNew line board.entries }
    requires fits { BatchFits IsPlainValue batch }
    requires of_the_table { IsOfTable board.origin }
    ensures { IsOfTable result.0.origin }
{
    let mut solo = Solo::new(board);
    solo.set_job(1, line);
    let reply = write_batch(alloc, &mut solo, codec, batch, 1, gate);
    (solo.into_board(), reply)
}

// The rows of a line as a writer is given them.
fn given_rows(alloc: Global, rows: &[InputRow]) -> Result<PutRows, AllocError>
    requires { All IsSized rows.now }
    ensures { IfOk result (λ given. given ≡ are_given rows.now) }
{
    let mut given = Sequence::new(alloc);
    for row in rows {
        given.push(PutRow::Fits(value_of_input(alloc, row)?))?;
    }
    Ok(given)
}

// An upsert.
fn upsert<G: Gate>(
    alloc: Global,
    board: MemBoard,
    codec: &PlainRows,
    line: u32,
    rows: Sequence<InputRow>,
    gate: &G,
) -> Result<(MemBoard, JobReply), AllocError>
    requires new { IsNew line board.entries }
    requires sized { AreSized rows }
    requires of_the_table { IsOfTable board.origin }
    ensures { IfOk result (λ after. IsOfTable after.0.origin) }
{
    let given = given_rows(alloc, rows.as_slice())?;
    Ok(write(alloc, board, codec, line, Batch::Puts(given), gate))
}

/// A snapshot as the job of a line.
pub(crate) fn query<G: Gate>(
    alloc: Global,
    board: MemBoard,
    codec: &PlainRows,
    line: u32,
    gate: &G,
) -> (MemBoard, JobReply)
    requires new { IsNew line board.entries }
    requires of_the_table { IsOfTable board.origin }
    ensures { IsOfTable result.0.origin }
{
    let mut solo = Solo::new(board);
    solo.set_job(1, line);
    let reply = snapshot(alloc, &mut solo, codec, None, 1, gate);
    (solo.into_board(), reply)
}

// A job, whose line is added to the text.
fn run_job<G: Gate>(
    alloc: Global,
    board: MemBoard,
    codec: &PlainRows,
    job: ScriptJob,
    gate: &G,
    out: &mut Vec<u8>,
) -> Result<MemBoard, AllocError>
    requires sized { HasSizes job }
    requires of_the_table { IsOfTable board.origin }
    ensures { IfOk result (λ board. IsOfTable board.origin) }
{
    let ScriptJob { number, line } = job;
    if !is_new(&board, number) {
        return Err(AllocError);
    }
    let (board, line, reply) = match line {
        Line::Upsert(rows) => {
            let (board, reply) = upsert(alloc, board, codec, number, rows, gate)?;
            (board, Line::Upsert(Sequence::new(alloc)), reply)
        }
        Line::Snapshot => {
            let (board, reply) = query(alloc, board, codec, number, gate);
            (board, Line::Snapshot, reply)
        }
    };
    put_job_text(alloc, out, &ScriptJob { number, line }, &reply)?;
    Ok(board)
}

fn jobs_of(alloc: Global, script: &str) -> Result<Sequence<ScriptJob>, AllocError>
    ensures { IfOk result (All HasSizes) }
{
    scripts_have_sizes();
    if script.len() > 67_108_864 {
        return Err(AllocError);
    }
    match parse_script(alloc, script.as_bytes()) {
        Ok(jobs) => Ok(jobs),
        Err(_) => Err(AllocError),
    }
}

/// Runs a script on a board. It gives the board as it is then, and the job lines.
pub(crate) fn run<G: Gate>(
    alloc: Global,
    board: MemBoard,
    script: &str,
    gate: &G,
) -> Result<(MemBoard, Vec<u8>), AllocError>
    requires { IsOfTable board.origin }
{
    let codec = PlainRows::new(alloc)?;
    let mut board = board;
    let mut out = Vec::new(alloc);
    for job in jobs_of(alloc, script)?.into_vec() {
        board = run_job(alloc, board, &codec, job, gate, &mut out)?;
    }
    Ok((board, out))
}

/// Adds a line for each entry of a board.
pub(crate) fn put_journal(
    alloc: Global,
    out: &mut Vec<u8>,
    board: &MemBoard,
) -> Result<(), AllocError> {
    for mark in board.journal() {
        put_mark_text(alloc, out, mark)?;
    }
    Ok(())
}
