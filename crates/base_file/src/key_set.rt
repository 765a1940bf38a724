// Whether a key comes twice.
ghost use Rattle.std.specs.Prelude.{◌≡◌, ◌++◌, ◌∷◌, [], ℕ, List, map, true, false, Some, option_map, OnOk, IfOk};
ghost use Rattle.std.specs.Bool.{OnTrue};
ghost use Rattle.base_file.specs.BaseFiles.{is_among, keys_differ, row_key};
ghost use Rattle.base_file.specs.KeyTables.{AreUpTo, IsTableOf};

use payload_merge::Row;
use std::alloc::{AllocError, Global};
use std::cmp::Ordering;
use std::collections::BTreeMap;

// Whether the key is in the table.
fn has_key<'a>(table: &BTreeMap<&'a [u8], ()>, key: &'a [u8]) -> bool
    ensures { (keys : List (List ℕ)) → IsTableOf keys table.now → result ≡ is_among keys key.now }
{
    table.contains_key(&key)
}

// Adds a key to the table.
fn add_key<'a>(table: &mut BTreeMap<&'a [u8], ()>, key: &'a [u8]) -> Result<(), AllocError>
    ensures { OnOk result ((keys : List (List ℕ)) → IsTableOf keys table.old → IsTableOf (keys ++ key.now ∷ []) table.new) }
{
    match table.insert(key, ()) {
        Ok(_) => Ok(()),
        Err(_) => Err(AllocError),
    }
}

// Whether the key is above the last one, where there is one.
fn is_above(key: &[u8], last: Option<&[u8]>) -> bool
    ensures { (keys : List (List ℕ)) → AreUpTo keys (option_map (λ last. last.now) last.entry)
        → OnTrue result ((is_among keys key.now ≡ false) × AreUpTo (keys ++ key.now ∷ []) (Some key.now)) }
{
    match last {
        None => true,
        Some(last) => last.cmp(key) == Ordering::Less,
    }
}

// Whether each key is above the one before it. Then none comes twice.
fn are_ascending(rows: &[Row]) -> bool
    ensures { OnTrue result (keys_differ [] (map row_key rows.now) ≡ true) }
{
    let mut last: Option<&[u8]> = None;
    for row in rows {
        let key = row.key.as_slice();
        if !is_above(key, last) {
            return false;
        }
        last = Some(key);
    }
    true
}

// Whether no two of the rows have one key. A table of the keys tells, so that no row is compared with all the others.
fn differ_by_table(alloc: Global, rows: &[Row]) -> Result<bool, AllocError>
    ensures { IfOk result (λ differ. differ ≡ keys_differ [] (map row_key rows.now)) }
{
    let mut table = BTreeMap::new(alloc);
    for row in rows {
        let key = row.key.as_slice();
        if has_key(&table, key) {
            return Ok(false);
        }
        add_key(&mut table, key)?;
    }
    Ok(true)
}

/// Whether no two of the rows have one key. Rows that come in the order of their keys, as those of a written file do, need
/// no table.
pub(crate) fn keys_differ(alloc: Global, rows: &[Row]) -> Result<bool, AllocError>
    ensures { IfOk result (λ differ. differ ≡ keys_differ [] (map row_key rows.now)) }
{
    if are_ascending(rows) {
        return Ok(true);
    }
    differ_by_table(alloc, rows)
}
