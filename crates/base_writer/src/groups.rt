// Files of cells written, a row group at a time.
ghost use Rattle.std.specs.Prelude.{◌≡◌, ◌<◌, ◌^◌, ◌++◌, ◌∷◌, [], pos, List, length, IfOk, OnOk};
ghost use Rattle.hudi_base.specs.declared.value.Value.{Value as Cell};
ghost use Rattle.column_cells.specs.Cells.{AreCellsOf};
ghost use Rattle.parquet_pages.specs.Parts.{parts_body, parts_page};
ghost use Rattle.base_cells.specs.Written.{group_pages, chunk_with, group_of};
ghost use Rattle.base_writer.specs.Fitting.{AreGroupOf};
ghost use Rattle.base_writer.specs.GroupParts.{group_parts, ArePagesOf, FitParts, parts_with, parts_pages, parts_chunks};

use hudi_base::{Bytes, Column, Columns, Sequence, Value, Values};
use parquet_meta::{Chunk, Chunks, RowGroup};
use parquet_pages::{PageCells, put_page};
use std::alloc::{AllocError, Global};
use std::marker::Model;

/// The encoding of values.
const PLAIN: i32 = 0;
/// The encoding of levels.
const RLE: i32 = 3;
/// The codec of chunks that aren't compressed.
const UNCOMPRESSED: i32 = 0;

/// The number with a sign. Memory has no room for as many bytes or rows as don't fit.
pub(crate) fn signed(number: usize) -> Result<i64, AllocError>
    ensures { IfOk result (λ signed. signed ≡ pos number) }
{
    match i64::try_from(number) {
        Ok(signed) => Ok(signed),
        Err(_) => Err(AllocError),
    }
}

fn encodings(alloc: Global) -> Result<Sequence<i32>, AllocError>
    ensures { IfOk result (λ encodings. encodings ≡ pos 0 ∷ pos 3 ∷ []) }
{
    let mut encodings = Sequence::new(alloc);
    encodings.push(PLAIN)?;
    encodings.push(RLE)?;
    Ok(encodings)
}

// The path of a column, which is its name alone.
fn path_of(alloc: Global, column: &Column) -> Result<Sequence<Bytes>, AllocError>
    ensures { IfOk result (λ path. path ≡ column.now.name ∷ []) }
{
    let mut path = Sequence::new(alloc);
    let name = column.name.copy(alloc)?;
    path.push(name)?;
    Ok(path)
}

// What the footer says of a chunk whose one page begins at this place and has so many cells and bytes.
fn chunk_of(
    alloc: Global,
    at: usize,
    column: &Column,
    count: usize,
    size: usize,
) -> Result<Chunk, AllocError>
    ensures { IfOk result (λ chunk. chunk ≡ chunk_with at column.now count size) }
{
    let at = signed(at)?;
    let size = signed(size)?;
    Ok(Chunk {
        file_offset: at,
        physical: column.physical,
        encodings: encodings(alloc)?,
        path: path_of(alloc, column)?,
        codec: UNCOMPRESSED,
        num_values: signed(count)?,
        uncompressed: size,
        compressed: size,
        data_offset: at,
    })
}

// Adds a column's page of so many cells and its chunk.
fn put_chunk(
    alloc: Global,
    column: &Column,
    count: usize,
    page: &PageCells,
    bytes: &mut Vec<u8>,
    chunks: &mut Vec<Chunk>,
) -> Result<(), AllocError>
    requires size { length (parts_body column.now page.now) < 2 ^ 31 }
    requires count { count < 2 ^ 31 }
    ensures bytes { OnOk result (bytes.new.items ≡ bytes.old.items ++ parts_page column.now count page.now) }
    ensures chunks { OnOk result (chunks.new.items ≡ chunks.old.items
        ++ chunk_with (length bytes.old.items) column.now count (length (parts_page column.now count page.now)) ∷ []) }
{
    let at = bytes.len();
    put_page(alloc, column, count, page, bytes)?;
    let chunk = chunk_of(alloc, at, column, count, bytes.len() - at)?;
    chunks.push(chunk)?;
    Ok(())
}

// Adds each column's page and its chunk.
fn put_chunks(
    alloc: Global,
    columns: &[Column],
    count: usize,
    pages: &[PageCells],
    bytes: &mut Vec<u8>,
    chunks: &mut Vec<Chunk>,
) -> Result<(), AllocError>
    requires size { FitParts columns.now pages.now }
    requires count { count < 2 ^ 31 }
    ensures bytes { OnOk result (bytes.new.items ≡ bytes.old.items ++ parts_pages columns.now count pages.now) }
    ensures chunks { OnOk result (chunks.new.items ≡ chunks.old.items
        ++ parts_chunks (length bytes.old.items) columns.now count pages.now) }
{
    match columns {
        [] => Ok(()),
        [column, columns @ ..] => match pages {
            [] => Ok(()),
            [page, pages @ ..] => {
                put_chunk(alloc, column, count, page, bytes, chunks)?;
                put_chunks(alloc, columns, count, pages, bytes, chunks)
            }
        },
    }
}

// What the footer says of a row group of these chunks, of so many bytes and rows.
fn group_with(chunks: Chunks, size: usize, count: usize) -> Result<RowGroup, AllocError>
    ensures { IfOk result (λ group. group ≡ record { columns = chunks; total_size = pos size; num_rows = pos count }) }
{
    Ok(RowGroup {
        columns: chunks,
        total_size: signed(size)?,
        num_rows: signed(count)?,
    })
}

// Adds the cells of a row, each to the page of its column.
fn add_cells(
    columns: &[Column],
    cells: &[Value],
    pages: &mut Vec<PageCells>,
) -> Result<(), AllocError>
    requires { AreCellsOf columns.now cells.now }
    ensures { OnOk result (pages.new.items ≡ parts_with columns.now cells.now pages.old.items) }
{
    for i in 0..columns.len().min(cells.len()).min(pages.len()) {
        pages[i].add(&columns[i], &cells[i])?;
    }
    Ok(())
}

/// The pages of a row group that is written, one for each column. Rows of cells are added one after another, and each can
/// be let go at once.
#[derive(Drop)]
pub struct GroupPages {
    pages: Vec<PageCells>,
}

impl Model for GroupPages {
    ghost use Rattle.std.specs.Prelude.{List};
    ghost use Rattle.parquet_pages.specs.Parts.{Parts};

    ghost Value = { List Parts };

    ghost view = { λ group. group.pages.items };
}

impl GroupPages {
    /// The pages of no rows of the columns. The only error is want of memory.
    pub fn new(alloc: Global, columns: &Columns) -> Result<GroupPages, AllocError>
        ensures { IfOk result (λ group. group ≡ group_parts columns.now []) }
    {
        let mut pages = Vec::with_capacity(alloc, columns.len())?;
        for _page in 0..columns.len() {
            pages.push(PageCells::new(alloc))?;
        }
        Ok(GroupPages { pages })
    }

    /// Adds the cells of a row to those of others. The only error is want of memory.
    pub fn add(&mut self, columns: &Columns, cells: &Values) -> Result<(), AllocError>
        requires { AreCellsOf columns.now cells.now }
        ensures { (rows : List (List Cell)) → self.old ≡ group_parts columns.now rows →
            OnOk result (self.new ≡ group_parts columns.now (rows ++ cells.now ∷ [])) }
    {
        add_cells(columns.as_slice(), cells.as_slice(), &mut self.pages)?;
        Ok(())
    }

    /// Adds the pages of so many rows to those of a file, and gives what its footer says of them. The only error is want of
    /// memory.
    pub fn put(
        &self,
        alloc: Global,
        columns: &Columns,
        count: usize,
        bytes: &mut Vec<u8>,
    ) -> Result<RowGroup, AllocError>
        requires { (rows : List (List Cell)) × ArePagesOf columns.now rows count self.now × AreGroupOf columns.now rows }
        ensures bytes { (rows : List (List Cell)) → ArePagesOf columns.now rows count self.now →
            OnOk result (bytes.new.items ≡ bytes.old.items ++ group_pages columns.now rows) }
        ensures group { (rows : List (List Cell)) → ArePagesOf columns.now rows count self.now →
            IfOk result (λ group. group ≡ group_of (length bytes.old.items) columns.now rows) }
    {
        let before = bytes.len();
        let mut chunks = Vec::new(alloc);
        put_chunks(
            alloc,
            columns.as_slice(),
            count,
            &self.pages,
            bytes,
            &mut chunks,
        )?;
        let group = group_with(Chunks::from_vec(chunks), bytes.len() - before, count)?;
        Ok(group)
    }
}
