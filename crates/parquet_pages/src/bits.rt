// Bits in bytes, eight in each, least first.
ghost use Rattle.std.specs.Prelude.{◌≡◌, ◌≤◌, ◌<◌, ◌^◌, ◌++◌, length, take, replicate, OnOk};
ghost use Rattle.parquet_pages.specs.Levels.{byte_bits, bits_of};
ghost use Rattle.parquet_pages.specs.Plain.{bits_number, bit_bytes, bytes_for};

use std::alloc::AllocError;

fn byte_bits(byte: u8) -> [bool; 8]
    ensures { result ≡ byte_bits byte }
{
    [
        byte % 2 == 1,
        byte / 2 % 2 == 1,
        byte / 4 % 2 == 1,
        byte / 8 % 2 == 1,
        byte / 16 % 2 == 1,
        byte / 32 % 2 == 1,
        byte / 64 % 2 == 1,
        byte / 128 % 2 == 1,
    ]
}

// Adds the bits of a byte, as far as they are wanted.
fn push_byte(bits: &mut Vec<bool>, most: usize, byte: u8) -> Result<(), AllocError>
    requires { length bits.old.items ≤ most }
    ensures added { OnOk result (bits.new.items ≡ take most (bits.old.items ++ byte_bits byte)) }
    ensures few { length bits.new.items ≤ most }
{
    let eight = byte_bits(byte);
    let room = most - bits.len();
    bits.extend_from_slice(&eight[..room.min(8)])?;
    Ok(())
}

/// Adds the bits of bytes, as far as they are wanted.
pub(crate) fn push_bytes(bits: &mut Vec<bool>, most: usize, bytes: &[u8]) -> Result<(), AllocError>
    requires { length bits.old.items ≤ most }
    ensures { OnOk result (bits.new.items ≡ take most (bits.old.items ++ bits_of bytes.now)) }
{
    for byte in bytes {
        push_byte(bits, most, *byte)?;
    }
    Ok(())
}

/// Adds so many times the same bit, as far as it is wanted.
pub(crate) fn push_times(
    bits: &mut Vec<bool>,
    most: usize,
    times: u64,
    bit: bool,
) -> Result<(), AllocError>
    requires { length bits.old.items ≤ most }
    ensures { OnOk result (bits.new.items ≡ take most (bits.old.items ++ replicate times bit)) }
{
    let len = bits.len();
    let added = (most - len).min(times as usize);
    bits.resize(len + added, bit)?;
    Ok(())
}

// The number of which these are the lowest bits, eight at most.
fn bits_number(bits: &[bool]) -> u8
    requires { length bits.now ≤ 8 }
    ensures number { result ≡ bits_number bits.now }
    ensures below { result < 2 ^ length bits.now }
{
    match bits {
        [] => 0,
        [bit, more @ ..] => u8::from(*bit) + 2 * bits_number(more),
    }
}

/// Adds the bytes of bits. Where the last byte has more than are left, those are 0.
pub(crate) fn put_bits(out: &mut Vec<u8>, bits: &[bool]) -> Result<(), AllocError>
    ensures { OnOk result (out.new.items ≡ out.old.items ++ bit_bytes (bytes_for (length bits.now)) bits.now) }
{
    let mut rest = bits;
    while !rest.is_empty() {
        let (eight, more) = rest.split_at(rest.len().min(8));
        out.push(bits_number(eight))?;
        rest = more;
    }
    Ok(())
}
