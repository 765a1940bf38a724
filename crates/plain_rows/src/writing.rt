// Contents of data blocks, as they are written.
ghost use Rattle.std.specs.Prelude.{◌≡◌, ◌<◌, ◌^◌, ◌++◌, length, All, OnOk, IfOk};
ghost use Rattle.std.specs.List.{flat_map};
ghost use Rattle.plain_rows.specs.Contents.{are_in_order, content_bytes, fields_bytes};
ghost use Rattle.plain_rows.specs.Contents.{place_bytes, row_bytes, told_bytes};
ghost use Rattle.plain_rows.specs.OwnRows.{IsOwn};
ghost use Rattle.plain_rows.specs.Readers.{IsInRange};

use byte_fields::{put_i64, put_u32, put_u32_prefixed};
use byteorder::BigEndian;
use payload_merge::Row;
use std::alloc::{AllocError, Global};

// The version of a content whose rows stand at the places 0, 1, 2 and so on.
const IN_ORDER: u32 = 3;

// The version of a content in which each row tells its place.
const TOLD: u32 = 4;

// Whether the rows stand at the places 0, 1, 2 and so on.
fn are_in_order(rows: &[Row]) -> bool
    ensures { result ≡ are_in_order 0 rows.now }
{
    let mut place: usize = 0;
    for row in rows {
        if row.seq as usize != place {
            return false;
        }
        place += 1;
    }
    true
}

// Adds the place of a row, where the content tells it.
fn put_place(out: &mut Vec<u8>, told: bool, seq: u32) -> Result<(), AllocError>
    ensures { OnOk result (out.new.items ≡ out.old.items ++ place_bytes told seq) }
{
    if told {
        put_u32::<BigEndian>(out, seq)
    } else {
        Ok(())
    }
}

// Adds a key, a rank and a body.
fn put_fields(out: &mut Vec<u8>, key: &[u8], rank: i64, body: &[u8]) -> Result<(), AllocError>
    requires key { length key.now < 2 ^ 32 }
    requires body { length body.now < 2 ^ 32 }
    ensures { OnOk result (out.new.items ≡ out.old.items ++ fields_bytes key.now rank body.now) }
{
    put_u32_prefixed::<BigEndian>(out, key)?;
    put_i64::<BigEndian>(out, rank)?;
    put_u32_prefixed::<BigEndian>(out, body)
}

// Adds a row.
#[tactic(auto, unfolding(crate::specs::Contents::row_bytes))]
fn put_row(out: &mut Vec<u8>, told: bool, row: &Row) -> Result<(), AllocError>
    requires { IsOwn row.now }
    ensures bytes { OnOk result (out.new.items ≡ out.old.items ++ row_bytes told row.now) }
    ensures range { OnOk result (IsInRange row.now) }
{
    put_place(out, told, row.seq)?;
    put_fields(out, row.key.as_slice(), row.rank, row.body.as_slice())
}

// Adds rows, one behind the other.
fn put_rows(out: &mut Vec<u8>, told: bool, rows: &[Row]) -> Result<(), AllocError>
    requires { All IsOwn rows.now }
    ensures bytes { OnOk result (out.new.items ≡ out.old.items ++ flat_map (row_bytes told) rows.now) }
    ensures range { OnOk result (All IsInRange rows.now) }
{
    for row in rows {
        put_row(out, told, row)?;
    }
    Ok(())
}

// The content of rows that tell their places or don't.
#[tactic(auto, unfolding(crate::specs::Contents::told_bytes))]
fn told_content(alloc: Global, told: bool, rows: &[Row]) -> Result<Vec<u8>, AllocError>
    requires own { All IsOwn rows.now }
    requires counted { length rows.now < 2 ^ 32 }
    ensures bytes { IfOk result (λ out. out.items ≡ told_bytes told rows.now) }
    ensures range { OnOk result (All IsInRange rows.now) }
{
    let mut out = Vec::new(alloc);
    put_u32::<BigEndian>(&mut out, if told { TOLD } else { IN_ORDER })?;
    put_u32::<BigEndian>(&mut out, rows.len() as u32)?;
    put_rows(&mut out, told, rows)?;
    Ok(out)
}

/// The content of a data block for these rows. The only error is want of memory.
pub(crate) fn content_of(alloc: Global, rows: &[Row]) -> Result<Vec<u8>, AllocError>
    requires own { All IsOwn rows.now }
    requires counted { length rows.now < 2 ^ 32 }
    ensures bytes { IfOk result (λ out. out.items ≡ content_bytes rows.now) }
    ensures range { OnOk result (All IsInRange rows.now) }
{
    let told = !are_in_order(rows);
    told_content(alloc, told, rows)
}
