// Writing blocks.
ghost use Rattle.std.specs.Prelude.{◌≡◌, ◌+◌, ◌<◌, ◌^◌, ◌++◌, length, IfOk, OnOk, SomeIff};
ghost use Rattle.byteorder.specs.Endian.{big_bytes};
ghost use Rattle.byte_fields.specs.Prefixed.{with_length};
ghost use Rattle.hudi_base.specs.InstantTime.{IsTime, time_text};
ghost use Rattle.log_block.specs.Form.{entry, header, fields, frame, block_bytes, content_of, SchemaFits, TimesFit, Fits};

use crate::block::{Block, BlockError};
use crate::format::{
    BlockType, FIXED_LEN, FOOTER_ENTRIES, HeaderKey, LENGTH_END, MAGIC, ROLLBACK, SIZE_LEN, VERSION,
};
use byte_fields::{put_u32, put_u32_prefixed, put_u64};
use byteorder::BigEndian;
use hudi_base::{Bytes, InstantTime};
use std::alloc::{AllocError, Global};

// An entry of a header.
#[tactic(auto, unfolding(crate::specs::Form::entry))]
fn put_entry(out: &mut Vec<u8>, key: HeaderKey, text: &[u8]) -> Result<(), AllocError>
    requires { length text.now < 2 ^ 32 }
    ensures { OnOk result (out.new.items ≡ out.old.items ++ entry key text.now) }
{
    put_u32::<BigEndian>(out, key.number())?;
    put_u32_prefixed::<BigEndian>(out, text)
}

// The entry of a time. The call of `ms` is there for its contract, by which every time is in range.
fn put_time(out: &mut Vec<u8>, key: HeaderKey, time: InstantTime) -> Result<(), AllocError>
    ensures text { OnOk result (out.new.items ≡ out.old.items ++ entry key (time_text time)) }
    ensures range { OnOk result (IsTime time) }
{
    let _ms = time.ms();
    put_entry(out, key, &time.text())
}

// The bytes of a header.
#[tactic(auto, unfolding(crate::specs::Form::header))]
fn header(alloc: Global, block: &Block) -> Result<Vec<u8>, AllocError>
    requires { SchemaFits block.now }
    ensures bytes { IfOk result (λ out. out.items ≡ header block.now) }
    ensures times { OnOk result (TimesFit block.now) }
{
    let mut out = Vec::new(alloc);
    put_u32::<BigEndian>(&mut out, BlockType::of(block).entries())?;
    match block {
        Block::Data {
            instant,
            schema,
            ..
        } => {
            put_time(&mut out, HeaderKey::InstantTime, *instant)?;
            put_entry(&mut out, HeaderKey::Schema, schema.as_slice())?;
        }
        Block::Delete { instant, .. } => {
            put_time(&mut out, HeaderKey::InstantTime, *instant)?;
        }
        Block::Rollback { instant, target } => {
            put_time(&mut out, HeaderKey::InstantTime, *instant)?;
            put_time(&mut out, HeaderKey::TargetInstantTime, *target)?;
            put_entry(&mut out, HeaderKey::CommandBlockType, ROLLBACK)?;
        }
    }
    Ok(out)
}

// How many bytes the fields take, unless the block has more bytes than memory.
fn fields_len(header: usize, content: usize) -> Option<usize>
    ensures { SomeIff result (header + content + 42 < 2 ^ 64) (header + content + 20) }
{
    let fixed = header.checked_add(LENGTH_END + FIXED_LEN + SIZE_LEN)?;
    let all = fixed.checked_add(content)?;
    Some(all - (LENGTH_END + SIZE_LEN))
}

// The content behind its length.
#[tactic(auto, unfolding(byte_fields::specs::Prefixed::with_length))]
fn put_content(out: &mut Vec<u8>, content: &[u8]) -> Result<(), AllocError>
    ensures { OnOk result (out.new.items ≡ out.old.items ++ with_length (big_bytes 8) content.now) }
{
    put_u64::<BigEndian>(out, content.len() as u64)?;
    out.extend_from_slice(content)
}

// From the version to the footer.
#[tactic(auto, unfolding(crate::specs::Form::fields))]
fn put_fields(
    out: &mut Vec<u8>,
    of: BlockType,
    header: &[u8],
    content: &[u8],
) -> Result<(), AllocError>
    ensures { OnOk result (out.new.items ≡ out.old.items ++ fields of header.now content.now) }
{
    put_u32::<BigEndian>(out, VERSION)?;
    put_u32::<BigEndian>(out, of.number())?;
    out.extend_from_slice(header)?;
    put_content(out, content)?;
    put_u32::<BigEndian>(out, FOOTER_ENTRIES)
}

// What a block holds.
fn content(block: &Block) -> &[u8]
    ensures { result.now ≡ content_of block.now }
{
    match block {
        Block::Data { content, .. } => content.as_slice(),
        Block::Delete { content, .. } => content.as_slice(),
        Block::Rollback { .. } => &[],
    }
}

// A block of that type with these fields.
#[tactic(auto, using(crate::proofs::Lengths::frame_is, crate::proofs::Lengths::lengths))]
fn frame(alloc: Global, of: BlockType, header: &[u8], content: &[u8]) -> Result<Bytes, BlockError>
    ensures form { IfOk result (λ bytes. bytes ≡ frame (fields of header.now content.now)) }
    ensures size { OnOk result (length (fields of header.now content.now) + 14 < 2 ^ 64) }
{
    let Some(inside) = fields_len(header.len(), content.len()) else {
        return Err(BlockError::Memory);
    };
    let mut out = Vec::with_capacity(alloc, inside + LENGTH_END + SIZE_LEN)?;
    out.extend_from_slice(MAGIC)?;
    put_u64::<BigEndian>(&mut out, (inside + SIZE_LEN) as u64)?;
    put_fields(&mut out, of, header, content)?;
    put_u64::<BigEndian>(&mut out, (inside + LENGTH_END) as u64)?;
    Ok(Bytes::from_vec(out))
}

/// The one form of a block. The only error is that memory has run out, which is also said of a block with more bytes
/// than memory has.
pub fn write_block(alloc: Global, block: &Block) -> Result<Bytes, BlockError>
    requires { SchemaFits block.now }
    ensures form { IfOk result (λ bytes. bytes ≡ block_bytes block.now) }
    ensures fits { OnOk result (Fits block.now) }
{
    let header = header(alloc, block)?;
    let bytes = frame(alloc, BlockType::of(block), &header, content(block))?;
    Ok(bytes)
}
