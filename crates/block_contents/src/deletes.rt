// The contents of delete blocks.
ghost use Rattle.std.specs.Prelude.{◌≡◌, ◌<◌, ◌^◌, ◌++◌, ℕ, List, length, All, flat_map, Ok, IfOk, IfErr, OnOk};
ghost use Rattle.byte_fields.specs.Reading.{Gives};
ghost use Rattle.payload_merge.specs.declared.row_error.RowError.TheVariants.{Memory};
ghost use Rattle.payload_merge.specs.RowCodec.{AnswersContent};
ghost use Rattle.block_contents.specs.Contents.{content_at, items_at};
ghost use Rattle.block_contents.specs.Readers.{HasRank, Reads, delete_in};
ghost use Rattle.block_contents.specs.Deletes.{IsDelete, IsDeleteIn, key_and_rank_bytes, key_and_rank_at, delete_at, delete_bytes, deletes_bytes, deletes_in};

use crate::content_head::{count_at, put_head};
use crate::read_error::ReadError;
use byte_fields::{FieldError, i64_at, put_i64, put_u32_prefixed, u32_prefixed_at};
use byteorder::BigEndian;
use hudi_base::{Bytes, Name};
use payload_merge::{RowError, Write, Writes};
use std::alloc::{AllocError, Global};

fn put_key_and_rank(out: &mut Vec<u8>, key: &[u8], rank: i64) -> Result<(), AllocError>
    requires { length key.now < 2 ^ 32 }
    ensures { OnOk result (out.new.items ≡ out.old.items ++ key_and_rank_bytes key.now rank) }
{
    put_u32_prefixed::<BigEndian>(out, key)?;
    put_i64::<BigEndian>(out, rank)
}

// Adds a delete.
fn put_delete(out: &mut Vec<u8>, write: &Write) -> Result<(), AllocError>
    requires { IsDelete write.now }
    ensures bytes { OnOk result (out.new.items ≡ out.old.items ++ delete_bytes write.now) }
    ensures ranked { HasRank write.now }
{
    match write {
        Write::Del { key, rank, .. } => put_key_and_rank(out, key.as_slice(), *rank),
        Write::Put(_) => Ok(()),
    }
}

// Adds deletes, one behind the other.
fn put_deletes(out: &mut Vec<u8>, writes: &[Write]) -> Result<(), AllocError>
    requires { All IsDelete writes.now }
    ensures bytes { OnOk result (out.new.items ≡ out.old.items ++ flat_map delete_bytes writes.now) }
    ensures ranked { OnOk result (All HasRank writes.now) }
{
    for write in writes {
        put_delete(out, write)?;
    }
    Ok(())
}

#[tactic(auto, unfolding(crate::specs::Contents::content_bytes))]
fn deletes_content(alloc: Global, dels: &[Write]) -> Result<Vec<u8>, AllocError>
    requires deletes { All IsDelete dels.now }
    requires counted { length dels.now < 2 ^ 32 }
    ensures bytes { IfOk result (λ out. out.items ≡ deletes_bytes dels.now) }
    ensures ranked { OnOk result (All HasRank dels.now) }
{
    let mut out = Vec::new(alloc);
    put_head(&mut out, dels.len() as u32)?;
    put_deletes(&mut out, dels)?;
    Ok(out)
}

/// The content of a delete block for deletes of one partition. It reads back as these in their partition. The only
/// error is want of memory.
pub fn delete_block(alloc: Global, dels: &[Write]) -> Result<Bytes, RowError>
    requires deletes { All IsDelete dels.now }
    requires counted { length dels.now < 2 ^ 32 }
    ensures bytes { IfOk result (λ content. content ≡ deletes_bytes dels.now) }
    ensures reads_back { IfOk result (λ content. (partition : List ℕ) → All (IsDeleteIn partition) dels.now
        → deletes_in partition content ≡ Ok dels.now) }
    ensures memory_alone { IfErr result (λ error. error ≡ Memory) }
{
    let out = deletes_content(alloc, dels)?;
    Ok(Bytes::from_vec(out))
}

// A delete, whose key is lent.
#[derive(Clone, Copy)]
struct DeleteRef<'a> {
    key: &'a [u8],
    rank: i64,
}

#[tactic(auto, unfolding(crate::specs::Deletes::key_and_rank_at))]
fn key_and_rank_at(bytes: &[u8]) -> Result<(DeleteRef<'_>, &[u8]), FieldError>
    ensures { (partition : List ℕ) → Gives (λ x. (delete_in partition x.0, x.1.now)) result (key_and_rank_at partition bytes.now) }
{
    let (key, rest) = u32_prefixed_at::<BigEndian>(bytes)?;
    let (rank, rest) = i64_at::<BigEndian>(rest)?;
    Ok((DeleteRef { key, rank }, rest))
}

// A delete. Whatever is wrong is wrong at its first byte.
#[tactic(auto, unfolding(crate::specs::Deletes::delete_at))]
fn delete_at(bytes: &[u8]) -> Result<(DeleteRef<'_>, &[u8]), FieldError>
    ensures { (partition : List ℕ) → Gives (λ x. (delete_in partition x.0, x.1.now)) result (delete_at partition bytes.now) }
{
    match key_and_rank_at(bytes) {
        Ok(found) => Ok(found),
        Err(error) => Err(error.of_item(bytes)),
    }
}

fn write_of(alloc: Global, partition: &Name, delete: DeleteRef<'_>) -> Result<Write, AllocError>
    ensures { IfOk result (λ write. write ≡ delete_in partition.now delete.entry) }
{
    let key = Bytes::from_slice(alloc, delete.key)?;
    Ok(Write::Del {
        partition: partition.copy(alloc)?,
        key,
        rank: delete.rank,
    })
}

// A delete with memory of its own.
fn next_delete<'a>(
    alloc: Global,
    partition: &Name,
    bytes: &'a [u8],
) -> Result<(Write, &'a [u8]), ReadError>
    ensures { Reads (λ x. (x.0, x.1.now)) result (delete_at partition.now bytes.now) }
{
    let (delete, rest) = delete_at(bytes)?;
    Ok((write_of(alloc, partition, delete)?, rest))
}

// So many deletes.
fn deletes_at<'a>(
    alloc: Global,
    partition: &Name,
    count: u32,
    bytes: &'a [u8],
) -> Result<(Writes, &'a [u8]), ReadError>
    ensures { Reads (λ x. (x.0, x.1.now)) result (items_at (delete_at partition.now) count bytes.now) }
{
    let mut found = Writes::new(alloc);
    let mut rest = bytes;
    for _ in 0..count {
        let (delete, after) = next_delete(alloc, partition, rest)?;
        found.push(delete)?;
        rest = after;
    }
    Ok((found, rest))
}

// The deletes, behind which nothing stands.
#[tactic(auto, unfolding(crate::specs::Contents::content_at))]
fn content_at(alloc: Global, partition: &Name, content: &[u8]) -> Result<Writes, ReadError>
    ensures { Reads (λ writes. writes) result (content_at (delete_at partition.now) content.now) }
{
    let (count, rest) = count_at(content)?;
    let (writes, rest) = deletes_at(alloc, partition, count, rest)?;
    if !rest.is_empty() {
        return Err(ReadError::Field(FieldError::bad(rest)));
    }
    Ok(writes)
}

/// The deletes in a partition that a content stands for. `BadContent` comes exactly where it stands for none: at 0 where
/// fewer than 8 bytes are there or the version isn't 3, else at the first byte of the delete that can't be read, its
/// length included, or of what stands behind the last. The only other error is want of memory.
pub fn delete_writes(alloc: Global, partition: &Name, content: &[u8]) -> Result<Writes, RowError>
    ensures { AnswersContent (deletes_in partition.now content.now) result }
{
    match content_at(alloc, partition, content) {
        Ok(writes) => Ok(writes),
        Err(error) => Err(error.of_content(content.len())),
    }
}
