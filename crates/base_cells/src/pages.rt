// The pages of a chunk.
ghost use Rattle.std.specs.Prelude.{◌≡◌, ◌≤◌, ◌<◌, ◌+◌, ◌++◌, ℕ, suc, length, drop, IfOk, IfErr, IfSome};
ghost use Rattle.byte_fields.specs.Prefixed.{nonnegative};
ghost use Rattle.parquet_pages.specs.Pages.{page_at, strange_encoding};
ghost use Rattle.base_cells.specs.Cells.{page_or, pages_at, cause_of_many};
ghost use Rattle.base_cells.specs.declared.base_error.BaseError.TheVariants.{BadBase};
ghost use Rattle.base_cells.specs.Answers.{Answers};

use crate::base_error::{BaseCause, BaseError};
use hudi_base::{Column, Values};
use parquet_meta::{MetaError, PageHeader, read_page_header};
use parquet_pages::{PageError, read_page, strange_encoding};
use sqlite_items::Items;
use std::alloc::{AllocError, Global};

// Why a page is refused whose header says that it has too many cells.
fn cause_of_many(column: &Column, header: &PageHeader) -> BaseCause
    ensures { result ≡ cause_of_many (strange_encoding column.now header.now) }
{
    match strange_encoding(column, header) {
        Some(encoding) => BaseCause::Encoding(encoding),
        None => BaseCause::Page,
    }
}

// How many cells the header says that the page has, unless it says that there are fewer than none.
fn count_of(header: &PageHeader) -> Option<usize>
    ensures { result ≡ nonnegative header.now.values }
{
    match usize::try_from(header.values) {
        Ok(count) => Some(count),
        Err(_) => None,
    }
}

// Why a page is refused whose header says that it has more cells than are left, so that none of them is read.
fn cause_by_header(
    alloc: Global,
    column: &Column,
    bytes: &[u8],
    left: usize,
) -> Result<Option<BaseCause>, BaseError>
    ensures cause { IfOk result (λ found. IfSome found (λ cause. (at : ℕ) →
        page_or at left (page_at column.now bytes.now) ≡ Err (BadBase cause at))) }
    ensures memory { IfErr result (λ error. error ≡ BaseError.Memory) }
{
    let header = match read_page_header(alloc, bytes) {
        Ok((header, _)) => header,
        Err(MetaError::Memory) => return Err(BaseError::Memory),
        Err(_) => return Ok(None),
    };
    match count_of(&header) {
        Some(count) if left < count => Ok(Some(cause_of_many(column, &header))),
        _ => Ok(None),
    }
}

// The page that begins at this place, of at most so many cells, and how many bytes it takes.
fn page_or(
    alloc: Global,
    column: &Column,
    bytes: &[u8],
    at: usize,
    left: usize,
) -> Result<(Values, usize), BaseError>
    requires { at ≤ length bytes.now }
    ensures page { Answers (λ x. x) result (page_or at left (page_at column.now (drop at bytes.now))) }
    ensures within { IfOk result (λ x. at + x.1 ≤ length bytes.now) }
    ensures few { IfOk result (λ x. length x.0 ≤ left) }
    ensures some { IfOk result (λ x. 0 < x.1) }
{
    if let Some(cause) = cause_by_header(alloc, column, &bytes[at..], left)? {
        return Err(BaseError::BadBase(cause, at));
    }
    match read_page(alloc, column, &bytes[at..]) {
        Ok((cells, len)) => {
            if cells.len() <= left {
                Ok((cells, len))
            } else {
                Err(BaseError::BadBase(BaseCause::Page, at))
            }
        }
        Err(PageError::Memory) => Err(BaseError::Memory),
        Err(PageError::BadPage(_)) => Err(BaseError::BadBase(BaseCause::Page, at)),
        Err(PageError::Encoding(n)) => Err(BaseError::BadBase(BaseCause::Encoding(n), at)),
    }
}

// Cells behind others. Where there are none before them, none is moved.
fn joined(front: Values, back: Values) -> Result<Values, AllocError>
    ensures { IfOk result (λ cells. cells ≡ front ++ back) }
{
    if front.is_empty() {
        return Ok(back);
    }
    let mut cells = front;
    cells.append(back)?;
    Ok(cells)
}

/// So many cells in pages that follow each other from a place on.
pub(crate) fn pages_at(
    alloc: Global,
    column: &Column,
    count: usize,
    start: usize,
    bytes: &[u8],
) -> Result<Values, BaseError>
    requires { start ≤ length bytes.now }
    ensures cells { Answers (λ cells. cells) result (pages_at (suc (length bytes.now)) column.now count start bytes.now) }
    ensures count { IfOk result (λ cells. length cells ≡ count) }
{
    let mut cells = Items::new(alloc);
    let mut at = start;
    let mut left = count;
    while left > 0 {
        let (page, len) = page_or(alloc, column, bytes, at, left)?;
        at += len;
        left -= page.len();
        cells = joined(cells, page)?;
    }
    Ok(cells)
}
