// Whether a footer tells of a file of certain columns.
ghost use Rattle.std.specs.Prelude.{◌≡◌, true, pos, sum_by, IfOk};
ghost use Rattle.std.specs.List.{list_all};
ghost use Rattle.std.specs.Ordering.{int_eq};
ghost use Rattle.base_cells.specs.Ends.{footer_start};
ghost use Rattle.base_cells.specs.Columns.{is_told, repetition_of, is_leaf_of, are_leaves, is_schema, is_path, is_chunk_of, are_chunks, rows_of, is_group_of, is_meta_of, meta_at};
ghost use Rattle.base_cells.specs.Answers.{Answers};

use crate::base_error::{BaseCause, BaseError};
use crate::ends::plain_meta_at;
use hudi_base::{Bytes, Column, Columns};
use parquet_meta::{Chunk, Element, FileMeta, RowGroup};
use std::alloc::Global;

fn is_told(known: i32, told: Option<i32>) -> bool
    ensures { result ≡ is_told known told }
{
    match told {
        Some(number) => known == number,
        None => false,
    }
}

fn repetition_of(column: &Column) -> i32
    ensures { result ≡ repetition_of column.now }
{
    if column.optional { 1 } else { 0 }
}

fn is_leaf_of(column: &Column, element: &Element) -> bool
    ensures { result ≡ is_leaf_of column.now element.now }
{
    is_told(column.physical, element.physical)
        && is_told(repetition_of(column), element.repetition)
        && element.name == column.name
}

fn are_leaves(columns: &[Column], elements: &[Element]) -> bool
    ensures { result ≡ are_leaves columns.now elements.now }
{
    match columns {
        [] => elements.is_empty(),
        [column, columns @ ..] => match elements {
            [] => false,
            [element, elements @ ..] => {
                is_leaf_of(column, element) && are_leaves(columns, elements)
            }
        },
    }
}

// Whether the node says that it has so many children.
fn has_children(root: &Element, count: usize) -> bool
    ensures { result ≡ is_told (pos count) root.now.children }
{
    match root.children {
        Some(children) => match usize::try_from(children) {
            Ok(children) => children == count,
            Err(_) => false,
        },
        None => false,
    }
}

fn is_schema(columns: &[Column], elements: &[Element]) -> bool
    ensures { result ≡ is_schema columns.now elements.now }
{
    match elements {
        [] => false,
        [root, elements @ ..] => has_children(root, columns.len()) && are_leaves(columns, elements),
    }
}

fn is_path(name: &Bytes, path: &[Bytes]) -> bool
    ensures { result ≡ is_path name.now path.now }
{
    match path {
        [first] => first == name,
        _ => false,
    }
}

fn is_chunk_of(rows: i64, column: &Column, chunk: &Chunk) -> bool
    ensures { result ≡ is_chunk_of rows column.now chunk.now }
{
    chunk.physical == column.physical
        && is_path(&column.name, chunk.path.as_slice())
        && chunk.num_values == rows
}

fn are_chunks(rows: i64, columns: &[Column], chunks: &[Chunk]) -> bool
    ensures { result ≡ are_chunks rows columns.now chunks.now }
{
    match columns {
        [] => chunks.is_empty(),
        [column, columns @ ..] => match chunks {
            [] => false,
            [chunk, chunks @ ..] => {
                is_chunk_of(rows, column, chunk) && are_chunks(rows, columns, chunks)
            }
        },
    }
}

fn is_group_of(columns: &[Column], group: &RowGroup) -> bool
    ensures { result ≡ is_group_of columns.now group.now }
{
    group.num_rows >= 0 && are_chunks(group.num_rows, columns, group.columns.as_slice())
}

fn are_groups(columns: &[Column], groups: &[RowGroup]) -> bool
    ensures { result ≡ list_all (is_group_of columns.now) groups.now }
{
    groups.iter().all(|group| is_group_of(columns, group))
}

// Whether the groups have so many rows together. None of them has fewer than none.
fn have_rows(rows: i64, groups: &[RowGroup]) -> bool
    ensures { result ≡ int_eq rows (pos (sum_by rows_of groups.now)) }
{
    let Ok(mut left) = u64::try_from(rows) else {
        return false;
    };
    for group in groups {
        let in_group = u64::try_from(group.num_rows).unwrap_or(0);
        if left < in_group {
            return false;
        }
        left -= in_group;
    }
    left == 0
}

fn is_meta_of(columns: &[Column], meta: &FileMeta) -> bool
    ensures { result ≡ is_meta_of columns.now meta.now }
{
    let groups = meta.groups.as_slice();
    is_schema(columns, meta.schema.as_slice())
        && are_groups(columns, groups)
        && have_rows(meta.num_rows, groups)
}

/// The footer of a file of the columns, and where it begins.
///
/// It refuses the bytes, in this order, for the file's ends, for the footer's length, for a footer without a reading, for a
/// column that isn't plain, and for a schema, chunks or counts that aren't those of a file of the columns.
#[tactic(auto, unfolding(crate::specs::Columns::meta_at))]
pub fn read_footer(
    alloc: Global,
    columns: &Columns,
    bytes: &[u8],
) -> Result<(FileMeta, usize), BaseError>
    ensures meta { Answers (λ x. x.0) result (meta_at columns.now bytes.now) }
    ensures start { IfOk result (λ x. x.1 ≡ footer_start bytes.now) }
    ensures groups { IfOk result (λ x. list_all (is_group_of columns.now) x.0.groups ≡ true) }
{
    let (meta, start) = plain_meta_at(alloc, bytes)?;
    if !is_meta_of(columns.as_slice(), &meta) {
        return Err(BaseError::BadBase(BaseCause::Columns, start));
    }
    Ok((meta, start))
}
