// Borrowed writes in the order of their keys.
ghost use Rattle.std.specs.Prelude.{◌≡◌, map, IfOk};
ghost use Rattle.std.specs.Ordering.{nat_cmp, ordering_then};
ghost use Rattle.payload_merge.specs.KeyOrder.{ArePrefixed, IsKeyPrefix, OrdersByKey, bytes_cmp, write_of};
ghost use Rattle.payload_merge.specs.RowRefs.{key_of_ref};

use crate::merge_error::MergeError;
use crate::row_refs::WriteRef;
use std::alloc::Global;
use std::cmp::Ordering;

// A write with the prefix of its key. Most keys differ in their prefixes already, so a sort by these seldom has to look
// at the keys themselves, which lie far apart.
#[derive(Clone, Copy)]
pub(crate) struct PrefixedWrite<'a> {
    pub(crate) prefix: u64,
    pub(crate) write: &'a WriteRef<'a>,
}

// The writes in the order of their keys, and those to one key in the order in which they came.
pub(crate) fn in_order<'a>(
    alloc: Global,
    writes: &'a [WriteRef<'a>],
) -> Result<Vec<PrefixedWrite<'a>>, MergeError>
    ensures { IfOk result (λ ordered. OrdersByKey writes.now (map write_of ordered.items)) }
{
    let mut prefixed = with_prefixes(alloc, writes)?;
    prefixed.sort_by(by_key)?;
    Ok(prefixed)
}

// Each write with the prefix of its key.
fn with_prefixes<'a>(
    alloc: Global,
    writes: &'a [WriteRef<'a>],
) -> Result<Vec<PrefixedWrite<'a>>, MergeError>
    ensures { IfOk result (λ prefixed. ArePrefixed writes.now prefixed.items) }
{
    let mut prefixed = Vec::new(alloc);
    for write in writes {
        let prefix = key_prefix(write.key());
        prefixed.push(PrefixedWrite { prefix, write })?;
    }
    Ok(prefixed)
}

// How many bytes of a key are its prefix.
const PREFIX_BYTES: usize = 8;

// The first bytes of a key as a number, as if zeros followed it.
fn key_prefix(key: &[u8]) -> u64
    ensures { IsKeyPrefix result key.now }
{
    let len = key.len().min(PREFIX_BYTES);
    let mut bytes = [0; PREFIX_BYTES];
    bytes[..len].copy_from_slice(&key[..len]);
    u64::from_be_bytes(bytes)
}

// The order of keys, of which the prefixes decide most.
fn by_key(one: &PrefixedWrite, other: &PrefixedWrite) -> Ordering
    ensures { result ≡ ordering_then (nat_cmp one.now.prefix other.now.prefix) (bytes_cmp (key_of_ref one.now.write.now) (key_of_ref other.now.write.now)) }
{
    match one.prefix.cmp(&other.prefix) {
        Ordering::Equal => one.write.key().cmp(other.write.key()),
        apart => apart,
    }
}
