// The chunks of a row group.
ghost use Rattle.std.specs.Prelude.{◌≡◌, length, IfOk};
ghost use Rattle.base_cells.specs.Columns.{number_or_0};
ghost use Rattle.base_cells.specs.Cells.{chunk_at};
ghost use Rattle.base_cells.specs.Answers.{Answers};

use crate::base_error::{BaseCause, BaseError};
use crate::pages::pages_at;
use hudi_base::{Column, Values};
use parquet_meta::Chunk;
use std::alloc::Global;

/// The codec of chunks that aren't compressed.
const UNCOMPRESSED: i32 = 0;

fn number_or_0(number: i64) -> usize
    ensures { result ≡ number_or_0 number }
{
    usize::try_from(number).unwrap_or(0)
}

/// The cells of a column's chunk.
#[tactic(auto, unfolding(crate::specs::Cells::chunk_at))]
pub(crate) fn chunk_at(
    alloc: Global,
    column: &Column,
    bytes: &[u8],
    chunk: &Chunk,
) -> Result<Values, BaseError>
    ensures cells { Answers (λ cells. cells) result (chunk_at column.now bytes.now chunk.now) }
    ensures count { IfOk result (λ cells. length cells ≡ number_or_0 chunk.now.num_values) }
{
    if chunk.codec != UNCOMPRESSED {
        let at = number_or_0(chunk.data_offset);
        return Err(BaseError::BadBase(BaseCause::Compressed(chunk.codec), at));
    }
    let Ok(at) = usize::try_from(chunk.data_offset) else {
        return Err(BaseError::BadBase(BaseCause::Page, 0));
    };
    if at >= bytes.len() {
        return Err(BaseError::BadBase(BaseCause::Page, at));
    }
    pages_at(alloc, column, number_or_0(chunk.num_values), at, bytes)
}
