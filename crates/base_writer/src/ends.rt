// The two ends of a file, with its footer.
ghost use Rattle.std.specs.Prelude.{◌≡◌, ◌++◌, ◌∷◌, [], length, All, IfOk};
ghost use Rattle.std.specs.Bool.{OnTrue};
ghost use Rattle.parquet_meta.specs.Written.{IsShort, FitsElement, FitsChunk, FitsRowGroup, FitsFileMeta, file_meta_bytes};
ghost use Rattle.base_cells.specs.Columns.{repetition_of};
ghost use Rattle.base_cells.specs.Ends.{magic};
ghost use Rattle.base_cells.specs.Written.{leaf_of, root_of};
ghost use Rattle.base_writer.specs.Fitting.{HasForm, schema_with, meta_with, end_bytes};

use crate::groups::signed;
use byte_fields::put_u32;
use byteorder::LittleEndian;
use hudi_base::{Bytes, Column, Columns};
use parquet_meta::{Chunk, Element, Elements, FileMeta, RowGroup, RowGroups, write_meta};
use std::alloc::{AllocError, Global};

/// The bytes at both ends of a file.
const MAGIC: &[u8] = b"PAR1";
/// The name of the schema's root.
const ROOT: &[u8] = b"schema";
/// The version of files.
const VERSION: i32 = 1;
/// How many items a list in a footer has, and how many bytes a name, is below this.
const LIMIT: usize = 4_294_967_296;

fn repetition_of(column: &Column) -> i32
    ensures { result ≡ repetition_of column.now }
{
    if column.optional { 1 } else { 0 }
}

fn leaf_of(alloc: Global, column: &Column) -> Result<Element, AllocError>
    ensures { IfOk result (λ leaf. leaf ≡ leaf_of column.now) }
{
    let name = column.name.copy(alloc)?;
    Ok(Element {
        physical: Some(column.physical),
        repetition: Some(repetition_of(column)),
        name,
        children: None,
        utf8: column.utf8,
    })
}

fn root_of(alloc: Global, count: usize) -> Result<Element, AllocError>
    ensures { IfOk result (λ root. root ≡ root_of count) }
{
    let Ok(children) = i32::try_from(count) else {
        return Err(AllocError);
    };
    let name = Bytes::from_slice(alloc, ROOT)?;
    Ok(Element {
        physical: None,
        repetition: None,
        name,
        children: Some(children),
        utf8: false,
    })
}

// The schema of the columns: a root, and each of them as its leaf.
fn schema_of(alloc: Global, columns: &[Column]) -> Result<Vec<Element>, AllocError>
    ensures { IfOk result (λ schema. schema.items ≡ schema_with (length columns.now) columns.now) }
{
    let mut schema = Vec::new(alloc);
    let root = root_of(alloc, columns.len())?;
    schema.push(root)?;
    for column in columns {
        let leaf = leaf_of(alloc, column)?;
        schema.push(leaf)?;
    }
    Ok(schema)
}

fn are_short(names: &[Bytes]) -> bool
    ensures { OnTrue result (All IsShort names.now) }
{
    names.iter().all(|name| name.as_slice().len() < LIMIT)
}

fn fit_elements(elements: &[Element]) -> bool
    ensures { OnTrue result (All FitsElement elements.now) }
{
    elements
        .iter()
        .all(|element| element.name.as_slice().len() < LIMIT)
}

fn fits_chunk(chunk: &Chunk) -> bool
    ensures { OnTrue result (FitsChunk chunk.now) }
{
    chunk.encodings.len() < LIMIT && chunk.path.len() < LIMIT && are_short(chunk.path.as_slice())
}

fn fit_chunks(chunks: &[Chunk]) -> bool
    ensures { OnTrue result (All FitsChunk chunks.now) }
{
    chunks.iter().all(|chunk| fits_chunk(chunk))
}

fn fits_group(group: &RowGroup) -> bool
    ensures { OnTrue result (FitsRowGroup group.now) }
{
    group.columns.len() < LIMIT && fit_chunks(group.columns.as_slice())
}

fn fit_groups(groups: &[RowGroup]) -> bool
    ensures { OnTrue result (All FitsRowGroup groups.now) }
{
    groups.iter().all(|group| fits_group(group))
}

// Whether the footer has a written form.
fn fits_meta(meta: &FileMeta) -> bool
    ensures { OnTrue result (FitsFileMeta meta.now) }
{
    meta.schema.len() < LIMIT
        && fit_elements(meta.schema.as_slice())
        && meta.groups.len() < LIMIT
        && fit_groups(meta.groups.as_slice())
}

// The bytes of a footer. One that has no written form is refused as want of memory, which it would take.
fn footer_of(alloc: Global, meta: &FileMeta) -> Result<Bytes, AllocError>
    ensures bytes { IfOk result (λ footer. footer ≡ file_meta_bytes meta.now) }
    ensures fits { IfOk result (λ _. FitsFileMeta meta.now) }
{
    if !fits_meta(meta) {
        return Err(AllocError);
    }
    match write_meta(alloc, meta) {
        Ok(footer) => Ok(footer),
        Err(_) => Err(AllocError),
    }
}

/// The beginning of a file. The only error is want of memory.
pub fn begin(alloc: Global) -> Result<Vec<u8>, AllocError>
    ensures { IfOk result (λ bytes. bytes.items ≡ magic) }
{
    Vec::from_slice(alloc, MAGIC)
}

/// The file of these bytes, which are its beginning and its pages, and of a footer that tells of its row groups. The only
/// error is want of memory, which also a footer of 2^32 bytes or more comes to.
pub fn finish(
    alloc: Global,
    columns: &Columns,
    num_rows: usize,
    groups: RowGroups,
    bytes: Vec<u8>,
) -> Result<Bytes, AllocError>
    ensures bytes { IfOk result (λ file. file ≡ bytes.items ++ end_bytes columns.now num_rows groups) }
    ensures form { IfOk result (λ _. HasForm (meta_with columns.now num_rows groups)) }
{
    let schema = schema_of(alloc, columns.as_slice())?;
    let meta = FileMeta {
        version: VERSION,
        schema: Elements::from_vec(schema),
        num_rows: signed(num_rows)?,
        groups,
    };
    let footer = footer_of(alloc, &meta)?;
    let Ok(len) = u32::try_from(footer.as_slice().len()) else {
        return Err(AllocError);
    };
    let mut file = bytes;
    file.extend_from_slice(footer.as_slice())?;
    put_u32::<LittleEndian>(&mut file, len)?;
    file.extend_from_slice(MAGIC)?;
    Ok(Bytes::from_vec(file))
}
