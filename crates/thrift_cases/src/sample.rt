// A footer to write: a root, an optional text and a required number, and a group of two chunks.
ghost use Rattle.std.specs.Prelude.{◌<◌, ◌^◌, ◌≡◌, All, length, IfOk};
ghost use Rattle.parquet_meta.specs.Written.{FitsElement, FitsChunk, FitsRowGroup, FitsFileMeta};

use anyhow::Result;
use hudi_base::{Bytes, Sequence};
use parquet_meta::{Chunk, Chunks, Element, Elements, FileMeta, RowGroup, RowGroups};
use std::alloc::Global;

fn root(alloc: Global) -> Result<Element>
    ensures { IfOk result (λ e. FitsElement e) }
{
    Ok(Element {
        physical: None,
        repetition: None,
        name: Bytes::from_slice(alloc, b"root")?,
        children: Some(1),
        utf8: false,
    })
}

fn text(alloc: Global) -> Result<Element>
    ensures { IfOk result (λ e. FitsElement e) }
{
    Ok(Element {
        physical: Some(6),
        repetition: Some(1),
        name: Bytes::from_slice(alloc, b"a")?,
        children: None,
        utf8: true,
    })
}

fn elements(alloc: Global) -> Result<Elements>
    ensures { IfOk result (λ es. (length es < 2 ^ 32) × All FitsElement es) }
{
    let mut elements = Sequence::new(alloc);
    elements.push(root(alloc)?)?;
    elements.push(text(alloc)?)?;
    Ok(elements)
}

fn chunk(alloc: Global) -> Result<Chunk>
    ensures { IfOk result (λ c. FitsChunk c) }
{
    let mut encodings = Sequence::new(alloc);
    encodings.push(0)?;
    let mut path = Sequence::new(alloc);
    path.push(Bytes::from_slice(alloc, b"a")?)?;
    Ok(Chunk {
        file_offset: 4,
        physical: 6,
        encodings,
        path,
        codec: 0,
        num_values: 3,
        uncompressed: 100,
        compressed: 100,
        data_offset: 4,
    })
}

fn chunks(alloc: Global) -> Result<Chunks>
    ensures { IfOk result (λ cs. (length cs < 2 ^ 32) × All FitsChunk cs) }
{
    let mut chunks = Sequence::new(alloc);
    chunks.push(chunk(alloc)?)?;
    Ok(chunks)
}

fn groups(alloc: Global) -> Result<RowGroups>
    ensures { IfOk result (λ gs. (length gs < 2 ^ 32) × All FitsRowGroup gs) }
{
    let columns = chunks(alloc)?;
    let mut groups = Sequence::new(alloc);
    groups.push(RowGroup {
        columns,
        total_size: 100,
        num_rows: 3,
    })?;
    Ok(groups)
}

/// The footer.
pub fn sample(alloc: Global) -> Result<FileMeta>
    ensures { IfOk result (λ m. FitsFileMeta m) }
{
    Ok(FileMeta {
        version: 1,
        schema: elements(alloc)?,
        num_rows: 3,
        groups: groups(alloc)?,
    })
}
