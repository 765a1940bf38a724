// Rows that are lent from the contents of data blocks, and what is left of them.
use crate::blocks::{Place, next_content, place_of_blocks};
use anyhow::{Result, bail};
use hudi_base::Bytes;
use payload_merge::{RowCodec, WriteRef, fold_writes};
use std::alloc::Global;

/// How many rows are left of those of contents, the first first, and the sum of their ranks.
pub fn told_of<K: RowCodec>(alloc: Global, codec: &K, contents: &[u8]) -> Result<Bytes> {
    let place = place_of_blocks(alloc)?;
    let writes = lent(alloc, codec, &place, contents)?;
    let Ok(rows) = fold_writes(alloc, &writes) else {
        bail!("out of memory");
    };
    let count = rows.len();
    let mut sum = 0i64;
    for row in &rows {
        sum = sum.saturating_add(row.rank);
    }
    let text = format!(in alloc; "{count} rows, ranks {sum}\n")?;
    Ok(Bytes::from_slice(alloc, text.as_bytes())?)
}

// The puts of the rows of contents. Their keys and bodies lie there.
fn lent<'a, K: RowCodec>(
    alloc: Global,
    codec: &K,
    place: &Place,
    contents: &'a [u8],
) -> Result<Vec<WriteRef<'a>>> {
    let mut writes = Vec::new(alloc);
    let mut rest = contents;
    for _ in 0..contents.len() {
        if rest.is_empty() {
            break;
        }
        rest = lend_first(alloc, codec, place, rest, &mut writes)?;
    }
    Ok(writes)
}

// Adds the puts of the first content, and gives what stands behind it.
fn lend_first<'a, K: RowCodec>(
    alloc: Global,
    codec: &K,
    place: &Place,
    contents: &'a [u8],
    writes: &mut Vec<WriteRef<'a>>,
) -> Result<&'a [u8]> {
    let (content, rest) = next_content(contents)?;
    let lent = codec.lent_writes(alloc, place.time, &place.partition, &place.file, content);
    let Ok(Some(lent)) = lent else {
        bail!("a content that isn't lent");
    };
    for write in lent {
        if writes.push(write).is_err() {
            bail!("out of memory");
        }
    }
    Ok(rest)
}
