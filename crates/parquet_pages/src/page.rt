// Pages: a header, levels and values.
ghost use Rattle.std.specs.Prelude.{◌≡◌, ◌<◌, ◌≤◌, ◌^◌, ◌++◌, length, Ok, IfOk, IfErr, OnOk, IfSome};
ghost use Rattle.std.specs.List.{flat_map};
ghost use Rattle.parquet_pages.specs.Plain.{value_bytes};
ghost use Rattle.parquet_pages.specs.Pages.{header_of, page_bytes, FitsPage, body_at, whole, body_size, page_cells, strange_encoding, page_at};
ghost use Rattle.parquet_pages.specs.Parts.{parts_of, parts_body, parts_page};
ghost use Rattle.parquet_pages.specs.Answers.{AnswersPage, AnswersHeader, Reads};
ghost use Rattle.parquet_meta.specs.PageHeaders.{page_header_at};
ghost use Rattle.parquet_meta.specs.Written.{page_header_bytes};

use crate::levels::levels_at;
use crate::page_cells::PageCells;
use crate::page_error::PageError;
use crate::plain::{full_values_at, values_at};
use crate::read_error::ReadError;
use hudi_base::{Bytes, Column, Value, Values};
use parquet_meta::{MetaError, PageHeader, read_page_header, write_page_header};
use std::alloc::{AllocError, Global};

/// The type of data pages.
const DATA_PAGE: i32 = 0;
/// The encoding of values.
const PLAIN: i32 = 0;
/// The encoding of levels.
const RLE: i32 = 3;

// The cells of a body, and what is behind them.
#[tactic(auto, unfolding(crate::specs::Pages::body_at))]
fn body_at<'a>(
    alloc: Global,
    column: &Column,
    count: u32,
    bytes: &'a [u8],
) -> Result<(Values, &'a [u8]), ReadError>
    ensures { Reads (λ x. (x.0, x.1.now)) result (body_at column.now count bytes.now) }
{
    if !column.optional {
        return full_values_at(alloc, column, count, bytes);
    }
    let (levels, rest) = levels_at(alloc, count as usize, bytes)?;
    values_at(alloc, column, &levels, rest)
}

// The cells that are all of a body, if they are.
fn whole_body(
    alloc: Global,
    column: &Column,
    count: u32,
    bytes: &[u8],
) -> Result<Option<Values>, AllocError>
    ensures { IfOk result (λ cells. cells ≡ whole (body_at column.now count bytes.now)) }
{
    match body_at(alloc, column, count, bytes) {
        Ok((cells, [])) => Ok(Some(cells)),
        Ok((_, _)) => Ok(None),
        Err(ReadError::Memory) => Err(AllocError),
        Err(ReadError::Field(_)) => Ok(None),
    }
}

// The size of a body of which so many bytes are there.
fn body_size(header: &PageHeader, available: usize) -> Option<usize>
    ensures size { result ≡ body_size header.now available }
    ensures within { IfSome result (λ size. size ≤ available) }
{
    if header.kind != DATA_PAGE || header.uncompressed != header.compressed {
        return None;
    }
    match usize::try_from(header.compressed) {
        Ok(size) if size <= available => Some(size),
        _ => None,
    }
}

// The cells behind a header, and how many bytes they take.
#[tactic(auto, unfolding(crate::specs::Pages::page_cells))]
fn page_cells(
    alloc: Global,
    column: &Column,
    header: &PageHeader,
    bytes: &[u8],
) -> Result<Option<(Values, usize)>, AllocError>
    ensures exact { IfOk result (λ found. found ≡ page_cells column.now header.now bytes.now) }
    ensures within { IfOk result (λ found. IfSome found (λ x. x.1 ≤ length bytes.now)) }
{
    let Some(size) = body_size(header, bytes.len()) else {
        return Ok(None);
    };
    let Ok(count) = u32::try_from(header.values) else {
        return Ok(None);
    };
    match whole_body(alloc, column, count, &bytes[..size])? {
        Some(cells) => Ok(Some((cells, size))),
        None => Ok(None),
    }
}

/// The encoding that a page of the column has and that isn't known, if it has one: that of its values first, then that of
/// its levels. Known are PLAIN (0) for values and RLE (3) for levels, which only an optional column has.
pub fn strange_encoding(column: &Column, header: &PageHeader) -> Option<i32>
    ensures { result ≡ strange_encoding column.now header.now }
{
    if header.encoding != PLAIN {
        Some(header.encoding)
    } else if column.optional && header.def_encoding != RLE {
        Some(header.def_encoding)
    } else {
        None
    }
}

// The header at the beginning of a page.
fn header_at(alloc: Global, bytes: &[u8]) -> Result<(PageHeader, usize), PageError>
    ensures { AnswersHeader bytes.now result (page_header_at bytes.now) }
{
    match read_page_header(alloc, bytes) {
        Ok(found) => Ok(found),
        Err(MetaError::Memory) => Err(PageError::Memory),
        Err(_) => Err(PageError::BadPage(0)),
    }
}

/// The cells of the column in the page at the beginning of the bytes, nulls among them, and how many bytes the page takes.
///
/// The refusals, the first that applies: `BadPage(0)` exactly where the header has no reading; `Encoding` where the
/// values aren't PLAIN, or else the column is optional and its levels aren't RLE; and `BadPage` with the header's length
/// where it isn't a data page's, its two sizes differ, are negative or pass the end, or the body isn't just as many cells
/// as the header says. Nothing is reserved from a number in the header.
pub fn read_page(alloc: Global, column: &Column, bytes: &[u8]) -> Result<(Values, usize), PageError>
    ensures exact { AnswersPage result (page_at column.now bytes.now) }
    ensures within { IfOk result (λ found. found.1 ≤ length bytes.now) }
{
    let (header, len) = header_at(alloc, bytes)?;
    if let Some(encoding) = strange_encoding(column, &header) {
        return Err(PageError::Encoding(encoding));
    }
    match page_cells(alloc, column, &header, &bytes[len..])? {
        Some((cells, size)) => Ok((cells, len + size)),
        None => Err(PageError::BadPage(len)),
    }
}

fn header_of(size: usize, count: usize) -> PageHeader
    requires size { size < 2 ^ 31 }
    requires count { count < 2 ^ 31 }
    ensures { result ≡ header_of size count }
{
    PageHeader {
        kind: DATA_PAGE,
        uncompressed: size as i32,
        compressed: size as i32,
        values: count as i32,
        encoding: PLAIN,
        def_encoding: RLE,
        rep_encoding: RLE,
    }
}

// The bytes of a header.
fn header_bytes(alloc: Global, header: &PageHeader) -> Result<Bytes, AllocError>
    ensures { IfOk result (λ bytes. bytes ≡ page_header_bytes header.now) }
{
    match write_page_header(alloc, header) {
        Ok(bytes) => Ok(bytes),
        Err(_) => Err(AllocError),
    }
}

/// Adds the one written form of a page of so many cells; the page's body has fewer than 2^31 bytes. The only error is want
/// of memory.
pub fn put_page(
    alloc: Global,
    column: &Column,
    count: usize,
    cells: &PageCells,
    out: &mut Vec<u8>,
) -> Result<(), AllocError>
    requires size { length (parts_body column.now cells.now) < 2 ^ 31 }
    requires count { count < 2 ^ 31 }
    ensures { OnOk result (out.new.items ≡ out.old.items ++ parts_page column.now count cells.now) }
{
    let levels = cells.level_bytes(alloc, column)?;
    let truths = cells.truth_bytes(alloc, column)?;
    let values = cells.values(column, &truths);
    let header = header_bytes(alloc, &header_of(levels.len() + values.len(), count))?;
    out.extend_from_slice(header.as_slice())?;
    out.extend_from_slice(&levels)?;
    out.extend_from_slice(values)
}

// Cells of a column as the parts of a page.
fn cells_of(alloc: Global, column: &Column, cells: &[Value]) -> Result<PageCells, AllocError>
    requires { length (flat_map value_bytes cells.now) < 2 ^ 31 }
    ensures { IfOk result (λ parts. parts ≡ parts_of column.now cells.now) }
{
    let mut parts = PageCells::new(alloc);
    for cell in cells {
        parts.add(column, cell)?;
    }
    Ok(parts)
}

/// The one written form of a page of these cells, which are of the column; the page has fewer than 2^31 bytes and cells.
/// The only error is want of memory.
pub fn write_page(alloc: Global, column: &Column, cells: &Values) -> Result<Bytes, PageError>
    requires { FitsPage column.now cells.now }
    ensures written { IfOk result (λ bytes. bytes ≡ page_bytes column.now cells.now) }
    ensures memory { IfErr result (λ error. error ≡ PageError.Memory) }
{
    let parts = cells_of(alloc, column, cells.as_slice())?;
    let mut page = Vec::new(alloc);
    put_page(alloc, column, cells.len(), &parts, &mut page)?;
    Ok(Bytes::from_vec(page))
}
