// Borrowed rows and writes.
ghost use Rattle.std.specs.Prelude.{◌≡◌};
ghost use Rattle.payload_merge.specs.RowRefs.{key_of_ref, rank_of_ref};

use hudi_base::InstantTime;

/// A row whose key and body lie elsewhere, as in a block that was read. It doesn't say in which partition it lies:
/// rows that are folded together lie in one.
#[derive(Clone, Copy)]
pub struct RowRef<'a> {
    /// Its record key.
    pub key: &'a [u8],
    /// Its ordering value.
    pub rank: i64,
    /// The instant that wrote it.
    pub commit: InstantTime,
    /// Its place among the writes of that instant, from 0.
    pub seq: u32,
    /// The values of its fields.
    pub body: &'a [u8],
}

/// One write to one key, whose bytes lie elsewhere.
#[derive(Clone, Copy)]
pub enum WriteRef<'a> {
    /// A row that is inserted, or that replaces the present one.
    Put(RowRef<'a>),
    /// The row of a key is taken out.
    Del { key: &'a [u8], rank: i64 },
}

impl<'a> WriteRef<'a> {
    // The key that it is about.
    pub(crate) fn key(&self) -> &'a [u8]
        ensures { result.now ≡ key_of_ref self.now }
    {
        match self {
            WriteRef::Put(row) => row.key,
            WriteRef::Del { key, .. } => key,
        }
    }

    // Its rank.
    pub(crate) fn rank(&self) -> i64
        ensures { result ≡ rank_of_ref self.now }
    {
        match self {
            WriteRef::Put(row) => row.rank,
            WriteRef::Del { rank, .. } => *rank,
        }
    }
}
