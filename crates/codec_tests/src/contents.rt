// Contents of data blocks: the rows that are read from them, lent or not, and where they go wrong.
ghost use Rattle.std.specs.Prelude.{◌≤◌, length};
ghost use Rattle.row_values.specs.RowCells.{IsOwnRow};

use crate::table::{ROW, codec, instant, row_of};
use hudi_base::{Bytes, Name};
use payload_merge::{Row, RowCodec, RowError, Write, Writes};
use row_codec::FlatCodec;
use std::alloc::Global;
use std::fmt::Write as _;
use std::test::*;

// Contents of blocks of the instant 20240101000000001 in the file group `f` of the partition `x`, in hexadecimal
// digits, whose records another writer of Avro made; and what is read: the rows with their places and bodies, or the
// offset that is bad.
const CONTENTS: [(&str, &str); 23] = [
    // Two rows, none, the last place of a batch, a number in more bytes than it needs, and a key that comes twice.
    (
        "00000003000000020000003a2232303234303130313030303030303030312a32303234303130313030303030303030315f305f30\
        02610278026602610278020a010102040aff000000372232303234303130313030303030303030312a3230323430313031303030\
        3030303030315f305f3102620278026602620278027f000000",
        "lent x/a@5#0 02610278020a010102040aff x/b@-64#1 02620278027f000000 ",
    ),
    ("0000000300000000", "lent "),
    (
        "0000000300000001000000402232303234303130313030303030303030313c32303234303130313030303030303030315f305f\
        3432393439363732393502610278026602610278020a010100",
        "lent x/a@5#4294967295 02610278020a010100 ",
    ),
    (
        "00000003000000010000003b2232303234303130313030303030303030312a32303234303130313030303030303030315f305f30\
        02610278026602610278028a00010102040aff",
        "copied x/a@5#0 02610278020a010102040aff ",
    ),
    (
        "00000003000000020000003a2232303234303130313030303030303030312a32303234303130313030303030303030315f305f30\
        02610278026602610278020a010102040aff0000003a2232303234303130313030303030303030312a3230323430313031303030\
        3030303030315f305f3002610278026602610278020a010102040aff",
        "lent x/a@5#0 02610278020a010102040aff x/a@5#0 02610278020a010102040aff ",
    ),
    // A second record whose commit, seqno, key, partition, folder or file is another, whose ordering field is null,
    // or that is longer or shorter than its length.
    (
        "00000003000000020000003a2232303234303130313030303030303030312a32303234303130313030303030303030315f305f30\
        02610278026602610278020a010102040aff000000372232303234303130313030303030303030322a3230323430313031303030\
        3030303030325f305f3002610278026602610278020a010100",
        "bad 70",
    ),
    (
        "00000003000000020000003a2232303234303130313030303030303030312a32303234303130313030303030303030315f305f30\
        02610278026602610278020a010102040aff000000372232303234303130313030303030303030312a3230323430313031303030\
        3030303030315f315f3002610278026602610278020a010100",
        "bad 70",
    ),
    (
        "00000003000000020000003a2232303234303130313030303030303030312a32303234303130313030303030303030315f305f30\
        02610278026602610278020a010102040aff000000382232303234303130313030303030303030312c3230323430313031303030\
        3030303030315f305f303002610278026602610278020a010100",
        "bad 70",
    ),
    (
        "00000003000000020000003a2232303234303130313030303030303030312a32303234303130313030303030303030315f305f30\
        02610278026602610278020a010102040aff000000402232303234303130313030303030303030313c3230323430313031303030\
        3030303030315f305f3432393439363732393602610278026602610278020a010100",
        "bad 70",
    ),
    (
        "00000003000000020000003a2232303234303130313030303030303030312a32303234303130313030303030303030315f305f30\
        02610278026602610278020a010102040aff000000372232303234303130313030303030303030312a3230323430313031303030\
        3030303030315f305f3002620278026602610278020a010100",
        "bad 70",
    ),
    (
        "00000003000000020000003a2232303234303130313030303030303030312a32303234303130313030303030303030315f305f30\
        02610278026602610278020a010102040aff000000372232303234303130313030303030303030312a3230323430313031303030\
        3030303030315f305f3002610279026602610278020a010100",
        "bad 70",
    ),
    (
        "00000003000000020000003a2232303234303130313030303030303030312a32303234303130313030303030303030315f305f30\
        02610278026602610278020a010102040aff000000372232303234303130313030303030303030312a3230323430313031303030\
        3030303030315f305f3002610279026602610279020a010100",
        "bad 70",
    ),
    (
        "00000003000000020000003a2232303234303130313030303030303030312a32303234303130313030303030303030315f305f30\
        02610278026602610278020a010102040aff000000372232303234303130313030303030303030312a3230323430313031303030\
        3030303030315f305f3002610278026702610278020a010100",
        "bad 70",
    ),
    (
        "00000003000000020000003a2232303234303130313030303030303030312a32303234303130313030303030303030315f305f30\
        02610278026602610278020a010102040aff000000362232303234303130313030303030303030312a3230323430313031303030\
        3030303030315f305f300261027802660261027800010100",
        "bad 70",
    ),
    (
        "00000003000000020000003a2232303234303130313030303030303030312a32303234303130313030303030303030315f305f30\
        02610278026602610278020a010102040aff0000003b2232303234303130313030303030303030312a3230323430313031303030\
        3030303030315f305f3002610278026602610278020a010102040aff00",
        "bad 70",
    ),
    (
        "00000003000000020000003a2232303234303130313030303030303030312a32303234303130313030303030303030315f305f30\
        02610278026602610278020a010102040aff000000392232303234303130313030303030303030312a3230323430313031303030\
        3030303030315f305f3002610278026602610278020a010102040a",
        "bad 70",
    ),
    // Contents that end too soon, are of another version, or have bytes behind the last record.
    ("", "bad 0"),
    ("000000030000", "bad 0"),
    ("0000000200000000", "bad 0"),
    ("00000003ffffffff", "bad 8"),
    ("0000000300000001000000ff", "bad 8"),
    (
        "00000003000000010000003a2232303234303130313030303030303030312a32303234303130313030303030303030315f305f30\
        02610278026602610278020a010102040aff00",
        "bad 70",
    ),
    ("000000030000000000", "bad 8"),
];

// The beginning of a content of one record that another writer of Avro made, up to the bytes of its last cell; how
// many zero bytes these are; and how what is read begins.
const LONG_CELLS: [(&str, usize, &str); 2] = [
    (
        "00000003000000010001003a2232303234303130313030303030303030312a32303234303130313030303030303030315f305f\
        3002610278026602610278020a010102808008",
        65_536,
        "lent x/a@5#0 02610278020a01010280800800",
    ),
    (
        "00000003000000010001003b2232303234303130313030303030303030312a32303234303130313030303030303030315f305f\
        3002610278026602610278020a010102828008",
        65_537,
        "bad 8",
    ),
];

// The text of a row, and the content of a block of it alone in the file group `f`.
const SHOWN: &str =
    "{\"_hoodie_commit_seqno\":\"20240101000000001_0_0\",\"_hoodie_commit_time\":\"20240101000000001\",\
    \"d\":\"0aff\",\"f\":true,\"id\":\"a\",\"n\":-1,\"p\":\"x\",\"v\":5}";

const ONE_ROW: &str =
    "00000003000000010000003a2232303234303130313030303030303030312a32303234303130313030303030303030315f305f\
    3002610278026602610278020a010102040aff";

fn push_write(alloc: Global, out: &mut String, write: &Write) -> Result<(), Fail> {
    let Write::Put(row) = write else {
        return Err("a delete")?;
    };
    let partition = row.partition.as_str();
    let key = std::str::from_utf8(row.key.as_slice()).map_err(|_| "a text")?;
    let rank = row.rank;
    let seq = row.seq;
    let body = hex::encode(alloc, row.body.as_slice())?;
    write!(out, "{partition}/{key}@{rank}#{seq} {body} ")?;
    Ok(())
}

fn push_writes(alloc: Global, out: &mut String, writes: &Writes) -> Result<(), Fail> {
    for write in writes.as_slice() {
        push_write(alloc, out, write)?;
    }
    Ok(())
}

// Whether a content is lent, or why it isn't.
fn lent(alloc: Global, codec: &FlatCodec, content: &[u8]) -> Result<&'static str, Fail> {
    let partition = Name::from_text(alloc, "x")?;
    let file_id = Name::from_text(alloc, "f")?;
    match codec.lent_writes(alloc, instant()?, &partition, &file_id, content) {
        Ok(Some(_)) => Ok("lent "),
        Ok(None) => Ok("copied "),
        Err(_) => Ok("bad "),
    }
}

// What is read of a content.
fn said(alloc: Global, codec: &FlatCodec, content: &[u8]) -> Result<String, Fail> {
    let mut out = String::new(alloc);
    out.push_str(lent(alloc, codec, content)?)?;
    let partition = Name::from_text(alloc, "x")?;
    let file_id = Name::from_text(alloc, "f")?;
    match codec.block_writes(alloc, instant()?, &partition, &file_id, content) {
        Ok(writes) => push_writes(alloc, &mut out, &writes)?,
        Err(RowError::BadContent(offset)) => write!(out, "{offset}")?,
        Err(_) => out.push_str("another error")?,
    }
    Ok(out)
}

// The first content of which something else is read.
fn misread(
    alloc: Global,
    codec: &FlatCodec,
    contents: &[(&str, &str)],
) -> Result<Option<usize>, Fail> {
    for (place, (digits, want)) in contents.iter().enumerate() {
        let content = hex::decode(alloc, *digits)?;
        let said = said(alloc, codec, &content)?;
        if said.as_str() != *want {
            return Ok(Some(place));
        }
    }
    Ok(None)
}

// A content that begins so, and has so many zero bytes then.
fn with_zeros(alloc: Global, start: &str, zeros: usize) -> Result<Vec<u8>, Fail> {
    let mut content: Vec<u8> = hex::decode(alloc, start)?;
    for _ in 0..zeros {
        content.push(0)?;
    }
    Ok(content)
}

#[test]
fn contents_are_read_or_refused_at_their_place(rt: HostRuntime) -> Result<(), Fail> {
    let alloc = rt.alloc();
    let codec = codec(alloc)?;
    assert_eq!(rt; misread(alloc, &codec, &CONTENTS)?, None);
    for (start, zeros, want) in LONG_CELLS {
        let content = with_zeros(alloc, start, zeros)?;
        let said = said(alloc, &codec, &content)?;
        assert!(rt; said.as_str().starts_with(want));
    }
    Ok(())
}

fn block_of(alloc: Global, codec: &FlatCodec, file_id: &Name, row: &Row) -> Result<Bytes, RowError>
    requires own { IsOwnRow codec.now.records.own row.now }
    requires short_id { length file_id.now ≤ 65536 }
{
    codec.data_block(alloc, row.commit, file_id, std::slice::from_ref(row))
}

#[test]
fn a_row_is_written_and_shown(rt: HostRuntime) -> Result<(), Fail> {
    let alloc = rt.alloc();
    let codec = codec(alloc)?;
    let row = row_of(alloc, &codec, ROW)?;
    let text = codec.json_of(alloc, &row)?;
    assert_eq!(rt;
        std::str::from_utf8(text.as_slice()).map_err(|_| "a text")?,
        SHOWN
    );
    let file_id = Name::from_text(alloc, "f")?;
    let content = block_of(alloc, &codec, &file_id, &row)?;
    assert_eq!(rt; hex::encode(alloc, content.as_slice())?.as_str(), ONE_ROW);
    let cells = codec.cells(alloc, &row, &file_id)?;
    let again = codec.row(alloc, &row.partition, &cells)?;
    assert_eq!(rt; again.body.as_slice(), row.body.as_slice());
    Ok(())
}
