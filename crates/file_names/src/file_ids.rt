// File ids.
ghost use Rattle.std.specs.Prelude.{◌≡◌, ◌<◌, ◌++◌, ◌∷◌, IfOk, OnOk, drop};
ghost use Rattle.std.specs.Str.{IsUtf8};
ghost use Rattle.uuid.specs.Text.{hyphenated_text, lower};
ghost use Rattle.file_names.specs.FileId.{hex_digit, four_digits, url_uuid, tail_of, born_text, file_id};

use crate::NameError;
use hudi_base::{GroupRef, InstantTime, Name};
use std::alloc::{AllocError, Global};
use uuid::Uuid;

fn hex_digit(value: u16) -> u8
    requires { value < 16 }
    ensures { result ≡ hex_digit value }
{
    if value < 10 {
        b'0' + value as u8
    } else {
        87 + value as u8
    }
}

fn four_digits(number: u16) -> [u8; 4]
    ensures { result ≡ four_digits number }
{
    [
        hex_digit(number / 4096 % 16),
        hex_digit(number / 256 % 16),
        hex_digit(number / 16 % 16),
        hex_digit(number % 16),
    ]
}

// The table's name and the partition's path as one text.
fn joined(alloc: Global, table: &Name, partition: &Name) -> Result<Vec<u8>, AllocError>
    ensures { IfOk result (λ bytes. bytes.items ≡ table.now ++ 47 ∷ partition.now) }
{
    let mut bytes = Vec::from_slice(alloc, table.as_slice())?;
    bytes.push(b'/')?;
    bytes.extend_from_slice(partition.as_slice())?;
    Ok(bytes)
}

fn url_uuid(name: &[u8]) -> Uuid
    ensures { result ≡ url_uuid name.now }
{
    Uuid::new_v5(&Uuid::NAMESPACE_URL, name)
}

// The UUID's text without its first eight digits and the hyphen behind them.
#[tactic(auto, using(crate::proofs::FileIdLemmas::id_pieces))]
fn tail_of_uuid(alloc: Global, uuid: Uuid) -> Result<Vec<u8>, AllocError>
    ensures { IfOk result (λ tail. tail.items ≡ drop 9 (hyphenated_text lower uuid)) }
{
    let mut buffer = Uuid::encode_buffer();
    let text = uuid.hyphenated().encode_lower(&mut buffer).as_bytes();
    let tail = Vec::from_slice(alloc, &text[9..])?;
    Ok(tail)
}

#[tactic(auto, unfolding(crate::specs::FileId::tail_of))]
fn tail_of(alloc: Global, table: &Name, partition: &Name) -> Result<Vec<u8>, AllocError>
    ensures { IfOk result (λ tail. tail.items ≡ tail_of table.now partition.now) }
{
    let name = joined(alloc, table, partition)?;
    tail_of_uuid(alloc, url_uuid(&name))
}

#[tactic(auto, using(crate::proofs::FileIdLemmas::id_pieces))]
fn push_born(born: InstantTime, out: &mut Vec<u8>) -> Result<(), AllocError>
    ensures value { OnOk result (out.new.items ≡ out.old.items ++ born_text born) }
    ensures utf8 { OnOk result (IsUtf8 (born_text born)) }
{
    if born == InstantTime::FIRST {
        return out.extend_from_slice(b"0");
    }
    out.extend_from_slice(&born.text())
}

#[tactic(auto, using(crate::proofs::FileIdLemmas::id_pieces))]
fn id_bytes(alloc: Global, table: &Name, group: &GroupRef) -> Result<Vec<u8>, AllocError>
    ensures value { IfOk result (λ id. id.items ≡ file_id table.now group.now) }
    ensures utf8 { OnOk result (IsUtf8 (born_text group.now.born)) }
{
    let tail = tail_of(alloc, table, &group.partition)?;
    let mut id = Vec::from_slice(alloc, &four_digits(group.lo))?;
    id.extend_from_slice(&four_digits(group.hi))?;
    id.push(b'-')?;
    id.extend_from_slice(&tail)?;
    id.push(b'-')?;
    push_born(group.born, &mut id)?;
    Ok(id)
}

/// The id of a file group: its slots in hexadecimal, a tail that the table's name and the partition make, and when it
/// was born.
#[tactic(auto, using(crate::proofs::FileIdLemmas::id_pieces))]
pub fn file_id(alloc: Global, table: &Name, group: &GroupRef) -> Result<Name, NameError>
    ensures { IfOk result (λ id. id ≡ file_id table.now group.now) }
{
    let id = id_bytes(alloc, table, group)?;
    Ok(Name::from_slice(alloc, &id)?)
}
