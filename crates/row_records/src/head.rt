// What the cells of a record tell of its row.
ghost use Rattle.std.specs.Prelude.{◌≡◌, ◌≤◌, ◌+◌, ℕ, length, take, drop, option_and_then, option_map, unwrap_or};
ghost use Rattle.hudi_base.specs.InstantTime.{time_text};
ghost use Rattle.row_values.specs.Cells.{cells_view};
ghost use Rattle.row_values.specs.RowCells.{text_at};
ghost use Rattle.row_records.specs.Records.{behind, of_32_bits, one_text, only_text, seq_in};
ghost use Rattle.row_records.specs.Readers.{ReadsHead};

use hudi_base::Name;
use row_values::{CellRef, RowLayout, rank_in, text_at};
use table_forms::read_decimal;

// The places of the cells before a row's own.
pub(crate) const COMMIT_TIME: u32 = 0;

const SEQNO: u32 = 1;

const RECORD_KEY: u32 = 2;

const PARTITION_PATH: u32 = 3;

pub(crate) const FILE_NAME: u32 = 4;

/// How many cells stand before a row's own in a record.
pub const OWN_CELLS: usize = 5;

/// What is told of a row beside its instant, its partition and its own cells.
#[derive(Clone, Copy)]
pub struct RowHead<'a> {
    /// Its record key.
    pub key: &'a str,
    /// Its ordering value.
    pub rank: i64,
    /// Its place among the writes of its instant, from 0.
    pub seq: u32,
}

fn behind<'a>(start: &[u8], text: &'a [u8]) -> Option<&'a [u8]>
    ensures { option_map (λ rest. rest.now) result ≡ behind start.now text.now }
{
    text.strip_prefix(start)
}

fn of_32_bits(number: u64) -> Option<u32>
    ensures { result ≡ of_32_bits number }
{
    u32::try_from(number).ok()
}

// The place in its batch that the seqno of an instant tells, whose text this is.
#[tactic(auto, unfolding(crate::specs::Records::seq_in))]
fn seq_in(time: &[u8], text: &str) -> Option<u32>
    ensures { (instant : ℕ) → time.now ≡ time_text instant → result ≡ seq_in instant text.now }
{
    let number = behind(time, text.as_bytes())?;
    let digits = behind(b"_0_", number)?;
    of_32_bits(read_decimal(digits)?)
}

fn only_text<'a>(wanted: &str, text: &'a str) -> Option<&'a str>
    ensures { option_map (λ found. found.now) result ≡ only_text wanted.now text.now }
{
    if text == wanted { Some(text) } else { None }
}

// The text, if both are there and one text.
fn one_text<'a>(one: Option<&str>, other: Option<&'a str>) -> Option<&'a str>
    ensures { option_map (λ found. found.now) result ≡ one_text (option_map (λ text. text.now) one.entry) (option_map (λ text. text.now) other.entry) }
{
    only_text(one?, other?)
}

// The seqno tells the place in the batch.
fn seq_at(time: &[u8], cells: &[CellRef<'_>]) -> Option<u32>
    ensures { (instant : ℕ) → time.now ≡ time_text instant → result ≡ option_and_then (seq_in instant) (text_at 1 (cells_view cells.now)) }
{
    seq_in(time, text_at(cells, SEQNO)?)
}

// The cells before a row's own, and these.
pub(crate) fn split_cells<'a, 'b>(
    cells: &'b [CellRef<'a>],
) -> (&'b [CellRef<'a>], &'b [CellRef<'a>])
    requires { 5 ≤ length cells.now }
    ensures before { cells_view result.0.now ≡ take 5 (cells_view cells.now) }
    ensures own { cells_view result.1.now ≡ drop 5 (cells_view cells.now) }
{
    cells.split_at(OWN_CELLS)
}

// The record key, which is told twice.
fn key_at<'a>(layout: &RowLayout, cells: &[CellRef<'a>], own: &[CellRef<'a>]) -> Option<&'a str>
    ensures { option_map (λ found. found.now) result
        ≡ one_text (text_at 2 (cells_view cells.now)) (text_at layout.now.key (cells_view own.now)) }
{
    one_text(text_at(cells, RECORD_KEY), text_at(own, layout.key))
}

// The partition, which is told twice and has to be this one.
fn path_at<'a>(
    layout: &RowLayout,
    partition: &Name,
    cells: &[CellRef<'a>],
    own: &[CellRef<'a>],
) -> Option<&'a str>
    ensures { option_map (λ found. found.now) result
        ≡ option_and_then (only_text partition.now) (one_text (text_at 3 (cells_view cells.now)) (text_at layout.now.partition (cells_view own.now))) }
{
    let path = one_text(
        text_at(cells, PARTITION_PATH),
        text_at(own, layout.partition),
    )?;
    only_text(partition.as_str(), path)
}

// The place of the ordering field in a record.
fn rank_place(layout: &RowLayout) -> usize
    ensures { result ≡ 5 + unwrap_or layout.now.ordering 0 }
{
    OWN_CELLS + layout.ordering.unwrap_or(0) as usize
}

/// What the cells of a record tell of the row of an instant, whose text is `time`, and a partition; or the place of the
/// first cell that disagrees: the seqno, the record key, the partition path, or the ordering field, where it is null.
#[tactic(auto, unfolding(crate::specs::Records::row_in))]
pub fn row_head<'a>(
    layout: &RowLayout,
    time: &[u8],
    partition: &Name,
    cells: &[CellRef<'a>],
) -> Result<RowHead<'a>, usize>
    requires { 5 ≤ length cells.now }
    ensures { (instant : ℕ) → time.now ≡ time_text instant → ReadsHead layout.now instant partition.now (cells_view cells.now) result }
{
    let (_, own) = split_cells(cells);
    let Some(seq) = seq_at(time, cells) else {
        return Err(SEQNO as usize);
    };
    let Some(key) = key_at(layout, cells, own) else {
        return Err(RECORD_KEY as usize);
    };
    if path_at(layout, partition, cells, own).is_none() {
        return Err(PARTITION_PATH as usize);
    }
    let Some(rank) = rank_in(layout.ordering, own) else {
        return Err(rank_place(layout));
    };
    Ok(RowHead { key, rank, seq })
}
