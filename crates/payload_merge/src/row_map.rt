// The fold of writes as a map in memory. Each partition, key and body is moved into the map and out of it again,
// and none is copied.
ghost use Rattle.std.specs.Prelude.{◌≡◌, None, IfOk, OnOk, OnErr, IsTrue, ◌↔◌};
ghost use Rattle.std.specs.FinMap as table;
ghost use Rattle.payload_merge.specs.Payload.{key_of};
ghost use Rattle.payload_merge.specs.Fold.{table_after, rows_of};

use crate::merge_error::MergeError;
use crate::row::{Rows, Write};
use crate::rows_by_key::{RowsByKey, delete, into_rows, put};
use std::alloc::Global;
use std::collections::BTreeMap;
use std::marker::Model;

/// The rows that writes have left so far, one for each key that has one. Contracts see a finite map from keys, each
/// a partition and a record key, to rows.
#[derive(Drop)]
pub struct RowMap {
    by_key: RowsByKey,
}

impl Model for RowMap {
    ghost use Rattle.std.specs.Coded.{coded×, coded_list, coded_ℕ};
    ghost use Rattle.std.specs.FinMap as table;
    ghost use Rattle.payload_merge.specs.contracts.row.Row as row;
    ghost use Rattle.payload_merge.specs.Fold.{RowTable};
    ghost use Rattle.payload_merge.specs.RowsByKey.{table_of};

    ghost Value = { RowTable };

    ghost coded = { table.code (coded× (coded_list coded_ℕ) (coded_list coded_ℕ)) row.the_row.coded };

    ghost view = { λ rows. table_of rows.by_key.entries };
}

impl RowMap {
    /// No rows.
    pub fn new(alloc: Global) -> RowMap
        ensures { result ≡ table.empty }
    {
        RowMap {
            by_key: BTreeMap::new(alloc),
        }
    }

    /// How many rows there are.
    pub fn len(&self) -> usize
        ensures { result ≡ table.len self.now }
    {
        self.by_key.len()
    }

    /// Whether there is no row.
    pub fn is_empty(&self) -> bool
        ensures { IsTrue result ↔ (self.now ≡ table.empty) }
    {
        self.len() == 0
    }

    /// Takes one more write: the row of its key gives way to what the payload rule makes of it. An error, which
    /// only a write to a key with no row can have, changes nothing.
    pub fn fold_in(&mut self, w: Write) -> Result<(), MergeError>
        ensures ok { OnOk result (self.new ≡ table_after self.old w) }
        ensures err { OnErr result (self.new ≡ self.old) }
        ensures absent { OnErr result (table.get self.old (key_of w) ≡ None) }
    {
        match w {
            Write::Put(row) => put(&mut self.by_key, row),
            Write::Del {
                partition,
                key,
                rank,
            } => {
                delete(&mut self.by_key, (partition, key), rank);
                Ok(())
            }
        }
    }

    /// The rows in the order of their partitions and, in each, of their keys, by bytes.
    pub fn rows(self, alloc: Global) -> Result<Rows, MergeError>
        ensures { IfOk result (λ rows. rows ≡ rows_of self) }
    {
        into_rows(alloc, self.by_key)
    }
}
