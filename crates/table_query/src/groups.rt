// The groups of a view, one after another: the files of each are read, and then rows are made of their bytes. None behind
// a group whose bytes have no reading is read, and the bytes of no more than one are held.
ghost use Rattle.std.specs.Prelude.{◌≡◌, ◌≤◌, ◌+◌, ℕ, Option, [], ◌∷◌, length, map, MatchResult};
ghost use Rattle.std.specs.FinMap.{empty};
ghost use Rattle.payload_merge.specs.Fold.{rows_of, table_after_all};
ghost use Rattle.payload_merge.specs.declared.row.Write.TheVariants.{Put};
ghost use Rattle.table_core.specs.declared.job_reply.JobReply.TheVariants as job;
ghost use Rattle.table_history.specs.JobLaw.{GoesOn, entries_of};
ghost use Rattle.table_history.specs.Pins.{files_of_view};
ghost use Rattle.table_query.specs.GroupReading.{group_writes, is_among, view_writes};
ghost use Rattle.table_query.specs.Parts.{Folds, GivesFold, GivesRows, text_at};
ghost use Rattle.table_query.specs.ReadBytes.{PinsAt, bytes_read};
ghost use Rattle.table_query.specs.Reading.{HasReadUpTo, HasStopped, LeavesEarlier};
ghost use Rattle.table_query.specs.Snapshots.{HasAnswer, HasPinned, HasReadView, answer_of};

use crate::folding::fold_group;
use crate::lending::lent_rows;
use crate::reading::{read_files, sizes_of};
use crate::times::set_of;
use hudi_base::{Bytes, InstantTime};
use payload_merge::{RowMap, Rows, Write};
use std::alloc::Global;
use std::collections::BTreeSet;
use table_core::JobReply;
use table_history::{GroupParts, Steps, View};
use table_jobs::TableCodec;

// The rows of a map, in the order of their keys.
fn rows_in_order(alloc: Global, rows: RowMap) -> Result<Rows, JobReply>
    ensures { MatchResult result (λ given. given ≡ rows_of rows) (λ reply. reply ≡ job.Memory) }
{
    match rows.rows(alloc) {
        Ok(rows) => Ok(rows),
        Err(_) => Err(JobReply::Memory),
    }
}

// The rows that a group's files leave, whose bytes these are, in the order of their keys. Where the codec lends what
// the blocks hold they are sorted once; else each write is folded into a map.
fn rows_of_group<K: TableCodec>(
    alloc: Global,
    codec: &K,
    completed: &BTreeSet<InstantTime>,
    group: &GroupParts,
    texts: &[Bytes],
) -> Result<Rows, JobReply>
    requires { length group.now.parts ≤ length texts.now }
    ensures { GivesRows result
        (group_writes (record { rows = K.block_rows codec.now; table = K.table_name codec.now }) completed.now.keys (text_at texts.now) 0 group.now) }
{
    if let Some(rows) = lent_rows(alloc, codec, completed, group, texts) {
        return Ok(rows);
    }
    let mut rows = RowMap::new(alloc);
    match fold_group(alloc, codec, completed, group, texts, &mut rows) {
        Ok(()) => rows_in_order(alloc, rows),
        Err(reply) => Err(reply),
    }
}

// Puts rows, the first first.
fn put_all(put: Rows, rows: &mut RowMap) -> Result<(), JobReply>
    ensures { MatchResult result (λ done. rows.new ≡ table_after_all rows.old (map Put put)) (λ reply. reply ≡ job.Memory) }
{
    for row in put.into_vec() {
        let Ok(()) = rows.fold_in(Write::Put(row)) else {
            return Err(JobReply::Memory);
        };
    }
    Ok(())
}

// Folds what the files of a group hold, whose bytes these are. Where the codec lends what the blocks hold, only the
// rows that are left are put.
fn fold_texts<K: TableCodec>(
    alloc: Global,
    codec: &K,
    completed: &BTreeSet<InstantTime>,
    group: &GroupParts,
    texts: &[Bytes],
    rows: &mut RowMap,
) -> Result<(), JobReply>
    requires { length group.now.parts ≤ length texts.now }
    ensures { GivesFold result
        (group_writes (record { rows = K.block_rows codec.now; table = K.table_name codec.now }) completed.now.keys (text_at texts.now) 0 group.now)
        rows.old rows.new }
{
    match lent_rows(alloc, codec, completed, group, texts) {
        Some(lent) => put_all(lent, rows),
        None => fold_group(alloc, codec, completed, group, texts, rows),
    }
}

// Reads the files of the next group, whose first file has this number, and folds what they hold.
fn fold_next<T: Steps, K: TableCodec>(
    alloc: Global,
    steps: &mut T,
    codec: &K,
    pin: u64,
    sizes: &[u64],
    completed: &BTreeSet<InstantTime>,
    group: &GroupParts,
    first: usize,
    rows: &mut RowMap,
) -> Result<(), JobReply>
    requires within { first + length group.now.parts ≤ length sizes.now }
    requires so_far { HasReadUpTo pin first sizes.now (entries_of (T.mine steps.old)) }
    ensures job { T.job steps.new ≡ T.job steps.old }
    ensures seen { GoesOn (T.seen steps.old) (T.seen steps.new) }
    ensures later { T.later steps.old steps.new }
    ensures leaves { LeavesEarlier first (first + length group.now.parts) (entries_of (T.mine steps.old)) (entries_of (T.mine steps.new)) }
    ensures read { MatchResult result
        (λ done. HasReadUpTo pin (first + length group.now.parts) sizes.now (entries_of (T.mine steps.new))
        × Folds (group_writes (record { rows = K.block_rows codec.now; table = K.table_name codec.now }) completed.now.keys (bytes_read (entries_of (T.mine steps.new))) first group.now) rows.old rows.new)
        (λ reply. HasStopped pin (first + length group.now.parts) sizes.now
        (group_writes (record { rows = K.block_rows codec.now; table = K.table_name codec.now }) completed.now.keys (bytes_read (entries_of (T.mine steps.new))) first group.now)
        (entries_of (T.mine steps.new)) reply) }
{
    let texts = match read_files(alloc, steps, pin, sizes, first, group.parts.len()) {
        Ok(texts) => texts,
        Err(reply) => return Err(reply),
    };
    fold_texts(alloc, codec, completed, group, &texts, rows)
}

// Reads the groups of a view, and folds what each holds, one after another.
fn fold_groups<T: Steps, K: TableCodec>(
    alloc: Global,
    steps: &mut T,
    codec: &K,
    view: &View,
    sizes: &[u64],
    completed: &BTreeSet<InstantTime>,
) -> Result<RowMap, JobReply>
    requires pinned { HasPinned view.now (entries_of (T.mine steps.old)) }
    requires sized { sizes.now ≡ map (λ part. part.length) (files_of_view view.now) }
    requires completed { (t : ℕ) → is_among completed.now.keys t ≡ is_among view.now.completed t }
    ensures job { T.job steps.new ≡ T.job steps.old }
    ensures seen { GoesOn (T.seen steps.old) (T.seen steps.new) }
    ensures later { T.later steps.old steps.new }
    ensures pins { (at : Option ℕ) → PinsAt at (entries_of (T.mine steps.old)) → PinsAt at (entries_of (T.mine steps.new)) }
    ensures read { MatchResult result
        (λ rows. HasReadView (record { rows = K.block_rows codec.now; table = K.table_name codec.now }) view.now (entries_of (T.mine steps.new))
        × Folds (view_writes (record { rows = K.block_rows codec.now; table = K.table_name codec.now }) view.now.completed (bytes_read (entries_of (T.mine steps.new))) view.now.groups) empty rows)
        (λ reply. HasAnswer (record { rows = K.block_rows codec.now; table = K.table_name codec.now }) view.now (entries_of (T.mine steps.new)) reply) }
{
    let mut rows = RowMap::new(alloc);
    let mut first: usize = 0;
    for group in view.groups.as_slice() {
        match fold_next(
            alloc, steps, codec, view.pin, sizes, completed, group, first, &mut rows,
        ) {
            Ok(()) => {}
            Err(reply) => return Err(reply),
        }
        first += group.parts.len();
    }
    Ok(rows)
}

// The rows that the files of a view leave, where it has one group.
fn rows_of_only<T: Steps, K: TableCodec>(
    alloc: Global,
    steps: &mut T,
    codec: &K,
    view: &View,
    sizes: &[u64],
    completed: &BTreeSet<InstantTime>,
    group: &GroupParts,
) -> Result<Rows, JobReply>
    requires only { view.now.groups ≡ group.now ∷ [] }
    requires pinned { HasPinned view.now (entries_of (T.mine steps.old)) }
    requires sized { sizes.now ≡ map (λ part. part.length) (files_of_view view.now) }
    requires completed { (t : ℕ) → is_among completed.now.keys t ≡ is_among view.now.completed t }
    ensures job { T.job steps.new ≡ T.job steps.old }
    ensures seen { GoesOn (T.seen steps.old) (T.seen steps.new) }
    ensures later { T.later steps.old steps.new }
    ensures pins { (at : Option ℕ) → PinsAt at (entries_of (T.mine steps.old)) → PinsAt at (entries_of (T.mine steps.new)) }
    ensures read { HasAnswer (record { rows = K.block_rows codec.now; table = K.table_name codec.now }) view.now (entries_of (T.mine steps.new)) (answer_of view.now.t result) }
{
    let texts = match read_files(alloc, steps, view.pin, sizes, 0, group.parts.len()) {
        Ok(texts) => texts,
        Err(reply) => return Err(reply),
    };
    rows_of_group(alloc, codec, completed, group, &texts)
}

// The rows that the files of a view leave, by a map of them.
fn rows_of_several<T: Steps, K: TableCodec>(
    alloc: Global,
    steps: &mut T,
    codec: &K,
    view: &View,
    sizes: &[u64],
    completed: &BTreeSet<InstantTime>,
) -> Result<Rows, JobReply>
    requires pinned { HasPinned view.now (entries_of (T.mine steps.old)) }
    requires sized { sizes.now ≡ map (λ part. part.length) (files_of_view view.now) }
    requires completed { (t : ℕ) → is_among completed.now.keys t ≡ is_among view.now.completed t }
    ensures job { T.job steps.new ≡ T.job steps.old }
    ensures seen { GoesOn (T.seen steps.old) (T.seen steps.new) }
    ensures later { T.later steps.old steps.new }
    ensures pins { (at : Option ℕ) → PinsAt at (entries_of (T.mine steps.old)) → PinsAt at (entries_of (T.mine steps.new)) }
    ensures read { HasAnswer (record { rows = K.block_rows codec.now; table = K.table_name codec.now }) view.now (entries_of (T.mine steps.new)) (answer_of view.now.t result) }
{
    match fold_groups(alloc, steps, codec, view, sizes, completed) {
        Ok(rows) => rows_in_order(alloc, rows),
        Err(reply) => Err(reply),
    }
}

/// Reads the groups of a pinned view, and makes the rows that their files leave, in the order of their keys. Those of
/// one group come as they are.
pub(crate) fn rows_of_view<T: Steps, K: TableCodec>(
    alloc: Global,
    steps: &mut T,
    codec: &K,
    view: &View,
) -> Result<Rows, JobReply>
    requires pinned { HasPinned view.now (entries_of (T.mine steps.old)) }
    ensures job { T.job steps.new ≡ T.job steps.old }
    ensures seen { GoesOn (T.seen steps.old) (T.seen steps.new) }
    ensures later { T.later steps.old steps.new }
    ensures pins { (at : Option ℕ) → PinsAt at (entries_of (T.mine steps.old)) → PinsAt at (entries_of (T.mine steps.new)) }
    ensures read { HasAnswer (record { rows = K.block_rows codec.now; table = K.table_name codec.now }) view.now (entries_of (T.mine steps.new)) (answer_of view.now.t result) }
{
    let groups = view.groups.as_slice();
    let (Ok(sizes), Ok(completed)) = (
        sizes_of(alloc, groups),
        set_of(alloc, view.completed.as_slice()),
    ) else {
        return Err(JobReply::Memory);
    };
    if groups.len() == 1 {
        return rows_of_only(alloc, steps, codec, view, &sizes, &completed, &groups[0]);
    }
    rows_of_several(alloc, steps, codec, view, &sizes, &completed)
}
