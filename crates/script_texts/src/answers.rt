// Answers.
ghost use Rattle.std.specs.Prelude.{◌≡◌, ◌++◌, codes, decimal, All};
ghost use Rattle.row_values.specs.RowCells.{IsOwnRow};
ghost use Rattle.script_texts.specs.Putting.{Puts};
ghost use Rattle.script_texts.specs.Texts.{HasOwnRows, answer_text, cause_text, row_cause_text, rows_text, time_or_none};

use crate::putting::{put_text, put_time_or_none, put_timed};
use crate::rows::put_rows;
use hudi_base::{InstantTime, Name};
use payload_merge::Row;
use row_codec::FlatCodec;
use std::alloc::{AllocError, Global};
use table_core::{JobReply, RowCause};
use table_history::Cause;

/// Adds an answer.
#[tactic(auto, unfolding(crate::specs::Texts::answer_text))]
pub(crate) fn put_answer(
    alloc: Global,
    out: &mut Vec<u8>,
    codec: &FlatCodec,
    reply: &JobReply,
) -> Result<(), AllocError>
    requires { HasOwnRows codec.now.records.own reply.now }
    ensures { Puts result out.old.items out.new.items (answer_text codec.now.records.own reply.now) }
{
    match reply {
        JobReply::Committed(time) => put_timed(out, "committed ", *time),
        JobReply::BadRow(place, cause) => put_bad_row(alloc, out, *place, *cause),
        JobReply::Rows(time, rows) => put_snapshot(alloc, out, codec, *time, rows.as_slice()),
        JobReply::NotCompleted(time) => put_timed(out, "not_completed ", *time),
        JobReply::TimeOver => put_text(out, "time_over"),
        JobReply::Fault => put_text(out, "fault"),
        JobReply::Damaged(name, cause, at) => put_damaged(alloc, out, name, *cause, *at),
        JobReply::Memory => put_text(out, "memory"),
    }
}

// Adds the answer that tells of a row or key which is refused.
fn put_bad_row(
    alloc: Global,
    out: &mut Vec<u8>,
    place: u32,
    cause: RowCause,
) -> Result<(), AllocError>
    ensures { Puts result out.old.items out.new.items
        (codes "bad_row " ++ decimal place ++ codes " " ++ row_cause_text cause) }
{
    put_refused(alloc, out, place)?;
    put_row_cause(alloc, out, cause)
}

// Adds the place of a row or key which is refused.
fn put_refused(alloc: Global, out: &mut Vec<u8>, place: u32) -> Result<(), AllocError>
    ensures { Puts result out.old.items out.new.items (codes "bad_row " ++ decimal place ++ codes " ") }
{
    let text = format!(in alloc; "bad_row {place} ")?;
    put_text(out, text.as_str())
}

// Adds why it is.
fn put_row_cause(alloc: Global, out: &mut Vec<u8>, cause: RowCause) -> Result<(), AllocError>
    ensures { Puts result out.old.items out.new.items (row_cause_text cause) }
{
    match cause {
        RowCause::Mismatch(field) => {
            let text = format!(in alloc; "mismatch {field}")?;
            put_text(out, text.as_str())
        }
        RowCause::NoKey => put_text(out, "no_key"),
        RowCause::BadPartition => put_text(out, "bad_partition"),
        RowCause::NoOrdering => put_text(out, "no_ordering"),
        RowCause::TooLarge => put_text(out, "too_large"),
    }
}

// Adds the answer that has rows.
fn put_snapshot(
    alloc: Global,
    out: &mut Vec<u8>,
    codec: &FlatCodec,
    time: Option<InstantTime>,
    rows: &[Row],
) -> Result<(), AllocError>
    requires { All (IsOwnRow codec.now.records.own) rows.now }
    ensures { Puts result out.old.items out.new.items
        (codes "rows " ++ time_or_none time ++ codes " " ++ rows_text codec.now.records.own rows.now) }
{
    put_text(out, "rows ")?;
    put_time_or_none(out, time)?;
    put_text(out, " ")?;
    put_rows(alloc, out, codec, rows)
}

// Adds the answer that tells of a damaged file.
fn put_damaged(
    alloc: Global,
    out: &mut Vec<u8>,
    name: &Name,
    cause: Cause,
    at: u64,
) -> Result<(), AllocError>
    ensures { Puts result out.old.items out.new.items
        (codes "damaged " ++ name.now ++ codes " " ++ cause_text cause ++ codes " " ++ decimal at) }
{
    let name = name.as_str();
    let cause = cause_text(cause);
    let text = format!(in alloc; "damaged {name} {cause} {at}")?;
    put_text(out, text.as_str())
}

// What was wrong with a file.
fn cause_text(cause: Cause) -> &'static str
    ensures { result.now ≡ cause_text cause }
{
    match cause {
        Cause::Exists => "exists",
        Cause::Missing => "missing",
        Cause::Short => "short",
        Cause::Log => "log",
        Cause::Base => "base",
        Cause::Content => "content",
    }
}
