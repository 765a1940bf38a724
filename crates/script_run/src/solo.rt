// A script that is run in one lane.
ghost use Rattle.std.specs.Prelude.{◌≡◌, ◌⊎◌, ◌↔◌, ◌≤◌, ◌++◌, ℕ, MatchResult, [], flat_map, length, map, IfOk, OnOk};
ghost use Rattle.std.specs.Str.Lines.{lines};
ghost use Rattle.row_codec.specs.Codec.{IsOfTable};
ghost use Rattle.script_jobs.specs.Scripts.{Reads, most_script_bytes, said_job, said_phase, said_script, script_of};
ghost use Rattle.script_run.specs.Outcome.{Ends, IsSmooth, IsWithoutFiles, Means, moment};
ghost use Rattle.script_run.specs.Parts.{AreFrom, CameTo, EndsEarly, EndsListed, IsRead, IsReady, IsScript, script_with, verdict_of};
ghost use Rattle.script_run.specs.declared.verdict.Verdict.{Verdict};
ghost use Rattle.table_props.specs.PropsTexts.{IsTold, told_of};

use crate::input::{Input, read_all};
use crate::jobs::run_jobs;
use crate::printing::ending;
use crate::verdict::{Verdict, tell};
use crate::words::is_run_solo;
use hudi_base::{Bytes, Clock, Listed, Sequence, Sink, Source, Store};
use payload_merge::RowError;
use row_codec::FlatCodec;
use script_jobs::{Job, Jobs, LineError, Phase, Phases, Script, What, parse_script};
use script_texts::put_made_text;
use std::alloc::{AllocError, Global};
use table_board::Solo;
use table_open::{OpenError, create_table};
use table_props::Props;

/// How a script ends, with the store and the clock as they are then.
#[derive(Drop)]
pub(crate) struct Ended<S: Store, C: Clock> {
    verdict: Verdict,
    store: S,
    clock: C,
}

/// Runs the program: reads a script, makes its table in the store, which may have no file, runs the jobs in one lane over
/// it, and prints a line for each job and then a line for each entry. It gives the exit status, and the store and the
/// clock as they are then.
pub fn hudi_run_solo<S: Store, C: Clock, R: Source, O: Sink>(
    alloc: Global,
    words: &[String],
    store: S,
    clock: C,
    input: &mut R,
    output: &mut O,
) -> (u8, S, C)
    ensures run { (verdict : Verdict)
        × (Means verdict words.now (S.is_honest store)
        (moment (S.state store) (R.state input.old) (C.state clock))
        (moment (S.state result.1) (R.state input.new) (C.state result.2))
        × Ends verdict result.0 (O.state output.old) (O.state output.new)) }
    ensures ends_well { IsSmooth words.now (S.is_honest store)
        (moment (S.state store) (R.state input.old) (C.state clock))
        (moment (S.state result.1) (R.state input.new) (C.state result.2))
        (O.state output.old) (O.state output.new)
        → (result.0 ≡ 0) ⊎ (result.0 ≡ 8) }
{
    let ended = decide(alloc, words, store, clock, input);
    let status = tell(alloc, ended.verdict, output);
    (status, ended.store, ended.clock)
}

// How the program ends, before anything is written.
fn decide<S: Store, C: Clock, R: Source>(
    alloc: Global,
    words: &[String],
    store: S,
    clock: C,
    input: &mut R,
) -> Ended<S, C>
    ensures { Means result.verdict words.now (S.is_honest store)
        (moment (S.state store) (R.state input.old) (C.state clock))
        (moment (S.state result.store) (R.state input.new) (C.state result.clock)) }
{
    match read_script(alloc, words, input) {
        Ok(script) => run_script(alloc, script, store, clock),
        Err(verdict) => Ended {
            verdict,
            store,
            clock,
        },
    }
}

// No text, for want of memory.
fn out_of_memory(alloc: Global) -> Verdict
    ensures { result ≡ Verdict.OutOfMemory [] }
{
    Verdict::OutOfMemory(Bytes::from_vec(Vec::new(alloc)))
}

// The script that the input is.
fn read_script<R: Source>(alloc: Global, words: &[String], input: &mut R) -> Result<Script, Verdict>
    ensures { MatchResult result
        (λ script. IsScript words.now (R.state input.old) (R.state input.new) (said_script script))
        (λ verdict. EndsEarly verdict words.now (R.state input.old) (R.state input.new)) }
{
    if !is_run_solo(words) {
        return Err(Verdict::BadWords);
    }
    match read_all(alloc, input) {
        Input::Whole(bytes) => match script_of(alloc, bytes) {
            Ok(script) => Ok(script),
            Err(LineError::BadLine(number, cause)) => Err(Verdict::BadLine(number, cause)),
            Err(LineError::Memory) => Err(out_of_memory(alloc)),
        },
        Input::TooLong => Err(Verdict::TooLong),
        Input::Failed => Err(Verdict::InputFailed),
        Input::Memory => Err(out_of_memory(alloc)),
    }
}

// The script that bytes are, in one lane. The bytes go before a job runs.
fn script_of(alloc: Global, bytes: Bytes) -> Result<Script, LineError>
    requires { length bytes ≤ most_script_bytes }
    ensures { Reads result (script_of 1 (lines bytes)) }
{
    parse_script(alloc, bytes.as_slice(), 1)
}

// Lists the store, which may have no file.
fn find_no_file<S: Store>(alloc: Global, store: &mut S) -> Result<(), Verdict>
    ensures listed { MatchResult result (λ _. IsWithoutFiles (S.state store.old).told)
        (λ verdict. EndsListed verdict (S.state store.old) (S.state store.new)) }
    ensures same { (S.state store.new).told ≡ (S.state store.old).told }
    ensures honest { S.is_honest store.old ↔ S.is_honest store.new }
    ensures count { (S.state store.old).faults ≤ (S.state store.new).faults }
{
    match store.list(alloc) {
        Listed::Files(files) => {
            if files.is_empty() {
                return Ok(());
            }
            Err(Verdict::TableExists)
        }
        Listed::Failed => Err(Verdict::StoreFailed),
        Listed::Memory => Err(out_of_memory(alloc)),
    }
}

// Runs a script, if the store has no file.
fn run_script<S: Store, C: Clock>(alloc: Global, script: Script, store: S, clock: C) -> Ended<S, C>
    requires { IsRead (said_script script) }
    ensures { CameTo result.verdict (said_script script) (S.is_honest store) (S.state store) (S.state result.store)
        (C.state clock) (C.state result.clock) }
{
    let mut store = store;
    match find_no_file(alloc, &mut store) {
        Ok(()) => run_new(alloc, script, store, clock),
        Err(verdict) => Ended {
            verdict,
            store,
            clock,
        },
    }
}

// Runs a script over a store that has no file, if the script makes a table.
fn run_new<S: Store, C: Clock>(alloc: Global, script: Script, store: S, clock: C) -> Ended<S, C>
    requires fresh { IsWithoutFiles (S.state store).told }
    requires read { IsRead (said_script script) }
    ensures { CameTo result.verdict (said_script script) (S.is_honest store) (S.state store) (S.state result.store)
        (C.state clock) (C.state result.clock) }
{
    let Script { init, phases } = script;
    match init {
        Some(
            Job {
                line,
                what: What::Init(props),
                ..
            },
        ) => run_fresh(alloc, line, props, phases, store, clock),
        _ => Ended {
            verdict: Verdict::NoTable,
            store,
            clock,
        },
    }
}

// Adds the jobs of a phase. The only error is want of memory.
fn add_jobs(jobs: &mut Jobs, phase: Phase) -> Result<(), AllocError>
    ensures { OnOk result (map said_job jobs.new ≡ map said_job jobs.old ++ said_phase phase) }
{
    for job in phase.jobs.into_vec() {
        jobs.push(job)?;
    }
    Ok(())
}

// The jobs of all phases, one after another.
fn jobs_of(alloc: Global, phases: Phases) -> Result<Jobs, AllocError>
    ensures { IfOk result (λ jobs. map said_job jobs ≡ flat_map (λ jobs. jobs) (map said_phase phases)) }
{
    let mut all = Sequence::new(alloc);
    for phase in phases.into_vec() {
        add_jobs(&mut all, phase)?;
    }
    Ok(all)
}

// The codec of a table. The only error is want of memory, since the fields of told properties are flat.
fn codec_of(alloc: Global, props: &Props) -> Result<FlatCodec, AllocError>
    requires { IsTold (told_of props.now) }
    ensures { IfOk result (λ codec. IsOfTable codec.records.own (told_of props.now)) }
{
    match FlatCodec::new(alloc, props) {
        Ok(codec) => Ok(codec),
        Err(RowError::Memory) => Err(AllocError),
        Err(_) => unreachable!(),
    }
}

// What a run needs before its table is made.
#[derive(Drop)]
struct Ready {
    codec: FlatCodec,
    jobs: Jobs,
    text: Vec<u8>,
}

// The codec of the table, the jobs, and the text with the line of the table's making. The only error is want of memory.
fn make_ready(alloc: Global, line: u32, props: &Props, phases: Phases) -> Result<Ready, AllocError>
    requires told { IsTold (told_of props.now) }
    ensures { IfOk result (λ ready. IsReady line (told_of props.now) (map said_phase phases)
        ready.codec.records.own (map said_job ready.jobs) ready.text.items) }
{
    let codec = codec_of(alloc, props)?;
    let jobs = jobs_of(alloc, phases)?;
    let mut text = Vec::new(alloc);
    put_made_text(alloc, &mut text, line)?;
    Ok(Ready { codec, jobs, text })
}

// How a run ends whose table isn't made.
fn not_made(alloc: Global, error: OpenError) -> Verdict
    ensures { result ≡ verdict_of error }
{
    match error {
        OpenError::Memory => out_of_memory(alloc),
        OpenError::TableExists => Verdict::TableExists,
        OpenError::StoreFault => Verdict::StoreFailed,
    }
}

// Makes the table in a store that has no file, and runs the jobs of a script over it.
fn run_fresh<S: Store, C: Clock>(
    alloc: Global,
    line: u32,
    props: Props,
    phases: Phases,
    store: S,
    clock: C,
) -> Ended<S, C>
    requires fresh { IsWithoutFiles (S.state store).told }
    requires told { IsTold (told_of props) }
    requires from { AreFrom 1 (flat_map (λ jobs. jobs) (map said_phase phases)) }
    ensures { (lane : ℕ) → CameTo result.verdict (script_with line lane (told_of props) (map said_phase phases))
        (S.is_honest store) (S.state store) (S.state result.store) (C.state clock) (C.state result.clock) }
{
    let Ok(ready) = make_ready(alloc, line, &props, phases) else {
        return Ended {
            verdict: out_of_memory(alloc),
            store,
            clock,
        };
    };
    let board = match create_table(alloc, store, clock, props) {
        Ok(board) => board,
        Err((error, store, clock)) => {
            return Ended {
                verdict: not_made(alloc, error),
                store,
                clock,
            };
        }
    };
    let Ready {
        codec,
        jobs,
        mut text,
    } = ready;
    let mut solo = Solo::new(board);
    let ran = run_jobs(alloc, &codec, jobs, &mut solo, &mut text);
    let board = solo.into_board();
    let verdict = ending(alloc, ran, text, board.journal());
    let (store, clock, _) = board.close();
    Ended {
        verdict,
        store,
        clock,
    }
}
