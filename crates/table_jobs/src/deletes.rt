// The deletes of keys.
ghost use Rattle.std.specs.Prelude.{◌≡◌};
ghost use Rattle.table_jobs.specs.NewRows.{delete_of, delete_rank, is_path, is_record_key};

use crate::del_key::DelKey;
use payload_merge::Write;
use table_core::RowCause;
use table_forms::is_partition_path;

const MOST_KEY_BYTES: usize = 1000;

fn is_record_key(key: &[u8]) -> bool
    ensures { result ≡ is_record_key key.now }
{
    1 <= key.len() && key.len() <= MOST_KEY_BYTES
}

#[tactic(auto, using(crate::proofs::Paths::path_told))]
fn is_path(text: &[u8]) -> bool
    ensures { result ≡ is_path text.now }
{
    is_partition_path(text)
}

fn delete_rank(is_ordered: bool, rank: Option<i64>) -> i64
    ensures { result ≡ delete_rank is_ordered rank }
{
    if is_ordered {
        rank.unwrap_or(i64::MAX)
    } else {
        0
    }
}

/// The delete of a key, or the first refusal: `NoKey` exactly where the key is empty or longer than 1,000 bytes, and then
/// `BadPartition` exactly where the partition is no path. Where rows have an ordering field the rank is the given one, or
/// the greatest where none is given; else it is 0. It takes no memory.
#[tactic(auto, unfolding(crate::specs::NewRows::delete_of))]
pub fn delete_of(is_ordered: bool, deleted: DelKey) -> Result<Write, RowCause>
    ensures { result ≡ delete_of is_ordered deleted }
{
    let DelKey {
        partition,
        key,
        rank,
    } = deleted;
    if !is_record_key(key.as_slice()) {
        return Err(RowCause::NoKey);
    }
    if !is_path(partition.as_slice()) {
        return Err(RowCause::BadPartition);
    }
    Ok(Write::Del {
        partition,
        key,
        rank: delete_rank(is_ordered, rank),
    })
}
