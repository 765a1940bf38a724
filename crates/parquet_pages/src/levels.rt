// Definition levels, which tell values from nulls.
ghost use Rattle.std.specs.Prelude.{◌≡◌, ◌≤◌, ◌<◌, ◌^◌, ◌+◌, ◌*◌, ◌++◌, ◌∷◌, length, take, IfOk, IfErr, OnOk};
ghost use Rattle.byte_fields.specs.Reading.{left_of};
ghost use Rattle.parquet_pages.specs.Levels.{run_bytes, levels_body, levels_bytes, repeated_at, packed_at, run_at, runs_at, levels_at, taken, error_behind};
ghost use Rattle.parquet_pages.specs.Answers.{AnswersLevels, Reads};
ghost use Rattle.parquet_meta.specs.Reading.{with_value};

use crate::bits::{push_bytes, push_times};
use crate::page_error::PageError;
use crate::read_error::ReadError;
use byte_fields::{
    FieldError, bytes_at, put_u32_prefixed, put_varint, u8_at, u32_prefixed_at, varint_at,
};
use byteorder::LittleEndian;
use hudi_base::{Bytes, Sequence};
use std::alloc::{AllocError, Global};

// Adds the levels of a run that repeats one, as far as they are wanted. The run's header begins at `header`.
#[tactic(auto, unfolding(crate::specs::Levels::repeated_at))]
fn push_repeated<'a>(
    levels: &mut Vec<bool>,
    count: usize,
    times: u64,
    header: &[u8],
    bytes: &'a [u8],
) -> Result<&'a [u8], ReadError>
    requires { length levels.old.items ≤ count }
    ensures { Reads (λ rest. (levels.new.items, rest.now)) result
        (with_value (λ run. take count (levels.old.items ++ run)) (repeated_at times header.now bytes.now)) }
{
    if times == 0 {
        return Err(ReadError::Field(FieldError::bad(header)));
    }
    let (byte, rest) = u8_at(bytes)?;
    if byte > 1 {
        return Err(ReadError::Field(FieldError::bad(bytes)));
    }
    push_times(levels, count, times, byte == 1)?;
    Ok(rest)
}

// Adds the levels of a run of bits, as far as they are wanted.
#[tactic(auto, unfolding(crate::specs::Levels::packed_at))]
fn push_packed<'a>(
    levels: &mut Vec<bool>,
    count: usize,
    len: u64,
    bytes: &'a [u8],
) -> Result<&'a [u8], ReadError>
    requires { length levels.old.items ≤ count }
    ensures { Reads (λ rest. (levels.new.items, rest.now)) result
        (with_value (λ run. take count (levels.old.items ++ run)) (packed_at len bytes.now)) }
{
    let (content, rest) = bytes_at(len as usize, bytes)?;
    push_bytes(levels, count, content)?;
    Ok(rest)
}

// Adds the levels of a run, as far as they are wanted.
#[tactic(auto, unfolding(crate::specs::Levels::run_at))]
fn push_run<'a>(
    levels: &mut Vec<bool>,
    count: usize,
    bytes: &'a [u8],
) -> Result<&'a [u8], ReadError>
    requires { length levels.old.items ≤ count }
    ensures { Reads (λ rest. (levels.new.items, rest.now)) result
        (with_value (λ run. take count (levels.old.items ++ run)) (run_at bytes.now)) }
{
    let (header, rest) = varint_at(bytes)?;
    if header % 2 == 0 {
        push_repeated(levels, count, header / 2, bytes, rest)
    } else {
        push_packed(levels, count, header / 2, rest)
    }
}

// The same error of a part of the bytes behind which there are so many more.
fn error_behind(more: usize, error: FieldError) -> FieldError
    requires { left_of error + more < 2 ^ 64 }
    ensures { result ≡ error_behind more error }
{
    match error {
        FieldError::Short { left } => FieldError::Short { left: left + more },
        FieldError::Bad { left } => FieldError::Bad { left: left + more },
    }
}

// The first levels of runs that are all of the bytes. Those past the count are read and not kept.
fn runs_at(alloc: Global, count: usize, bytes: &[u8]) -> Result<Vec<bool>, ReadError>
    ensures { Reads (λ levels. levels.items) result (taken count (runs_at (length bytes.now) bytes.now)) }
{
    let mut levels = Vec::new(alloc);
    let mut rest = bytes;
    while !rest.is_empty() {
        rest = push_run(&mut levels, count, rest)?;
    }
    Ok(levels)
}

/// So many levels at the beginning of the bytes, and what is behind them.
#[tactic(auto, unfolding(crate::specs::Levels::levels_at))]
pub(crate) fn levels_at(
    alloc: Global,
    count: usize,
    bytes: &[u8],
) -> Result<(Vec<bool>, &[u8]), ReadError>
    ensures { Reads (λ x. (x.0.items, x.1.now)) result (levels_at count bytes.now) }
{
    let (runs, rest) = u32_prefixed_at::<LittleEndian>(bytes)?;
    match runs_at(alloc, count, runs) {
        Err(ReadError::Memory) => Err(ReadError::Memory),
        Err(ReadError::Field(error)) => Err(ReadError::Field(error_behind(rest.len(), error))),
        Ok(levels) => {
            if levels.len() < count {
                return Err(ReadError::Field(FieldError::short(rest)));
            }
            Ok((levels, rest))
        }
    }
}

/// So many definition levels from the beginning of the bytes, behind their length, and how many bytes all of the runs take.
/// Runs of either kind are read to the end that the length gives; levels past the count are ignored. True says that there is
/// a value.
///
/// `BadPage` comes exactly where an item can't be read, and names the first: the length, a run's header or a run's bytes,
/// or the end of the runs where they have too few levels. Nothing is reserved from the count or from a run's length.
pub fn levels_read(
    alloc: Global,
    bytes: &[u8],
    count: u32,
) -> Result<(Sequence<bool>, usize), PageError>
    ensures { AnswersLevels bytes.now result (levels_at count bytes.now) }
{
    match levels_at(alloc, count as usize, bytes) {
        Ok((levels, rest)) => Ok((Sequence::from_vec(levels), bytes.len() - rest.len())),
        Err(ReadError::Memory) => Err(PageError::Memory),
        Err(ReadError::Field(error)) => Err(PageError::BadPage(error.offset(bytes.len()))),
    }
}

// Adds a run of so many equal levels.
fn put_run(out: &mut Vec<u8>, times: u64, level: bool) -> Result<(), AllocError>
    requires { times < 2 ^ 63 }
    ensures { OnOk result (out.new.items ≡ out.old.items ++ run_bytes (times, level)) }
{
    put_varint(out, times * 2)?;
    out.push(u8::from(level))?;
    Ok(())
}

// Adds the longest runs of levels, of which the first is given apart.
fn put_runs_from(out: &mut Vec<u8>, first: bool, more: &[bool]) -> Result<(), AllocError>
    requires { 1 + length more.now < 2 ^ 63 }
    ensures { OnOk result (out.new.items ≡ out.old.items ++ levels_body (first ∷ more.now)) }
{
    let mut level = first;
    let mut times = 1;
    for next in more {
        if *next == level {
            times += 1;
        } else {
            put_run(out, times, level)?;
            level = *next;
            times = 1;
        }
    }
    put_run(out, times, level)?;
    Ok(())
}

// Adds the longest runs of levels.
#[tactic(auto, unfolding(crate::specs::Levels::runs_of))]
fn put_runs(out: &mut Vec<u8>, levels: &[bool]) -> Result<(), AllocError>
    ensures { OnOk result (out.new.items ≡ out.old.items ++ levels_body levels.now) }
{
    match levels.split_first() {
        Some((first, more)) => put_runs_from(out, *first, more),
        None => Ok(()),
    }
}

/// Adds the longest runs of levels behind their length.
#[tactic(auto, unfolding(byte_fields::specs::Prefixed::with_length))]
pub(crate) fn put_levels(
    alloc: Global,
    out: &mut Vec<u8>,
    levels: &[bool],
) -> Result<(), AllocError>
    requires { length (levels_body levels.now) < 2 ^ 32 }
    ensures { OnOk result (out.new.items ≡ out.old.items ++ levels_bytes levels.now) }
{
    let mut runs = Vec::new(alloc);
    put_runs(&mut runs, levels)?;
    put_u32_prefixed::<LittleEndian>(out, &runs)
}

/// The one written form of definition levels: the longest runs of equal levels, each by its length, behind the length of
/// all of them, which is below 2^32. The only error is want of memory.
pub fn levels_write(alloc: Global, levels: &[bool]) -> Result<Bytes, PageError>
    requires { length (levels_body levels.now) < 2 ^ 32 }
    ensures written { IfOk result (λ bytes. bytes ≡ levels_bytes levels.now) }
    ensures memory { IfErr result (λ error. error ≡ PageError.Memory) }
{
    let mut out = Vec::new(alloc);
    put_levels(alloc, &mut out, levels)?;
    Ok(Bytes::from_vec(out))
}
