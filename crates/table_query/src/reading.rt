// Reading the files of a view.
ghost use Rattle.std.specs.Prelude.{◌≡◌, ◌<◌, ◌≤◌, ◌+◌, ◌++◌, None, length, map, IfOk, OnOk, MatchResult};
ghost use Rattle.std.specs.List.{flat_map};
ghost use Rattle.table_history.specs.JobLaw.{Allows, GoesOn, entries_of, phase};
ghost use Rattle.table_history.specs.declared.step.Reader.TheVariants.{Pin};
ghost use Rattle.table_history.specs.declared.step.Step.TheVariants.{Read};
ghost use Rattle.table_jobs.specs.Replies.{told};
ghost use Rattle.table_query.specs.Reading.{GotPiece, HasFailed, HasRead, HasReadFiles, HasReadNext, HasReadUpTo, IsNext, LeavesEarlier, LeavesOthers};

use hudi_base::Bytes;
use std::alloc::{AllocError, Global};
use table_core::JobReply;
use table_history::{GroupParts, Part, Reader, Reply, Step, Steps};

// The most that one step reads.
const MAX_PIECE: u64 = 16_777_216;

// Reads a piece of a file.
#[tactic(auto, using(crate::proofs::Pieces::may_leave, crate::proofs::Pieces::may_leave_fault, crate::proofs::Pieces::may_leave_damage))]
fn read_piece<T: Steps>(
    steps: &mut T,
    pin: u64,
    file: u32,
    at: u64,
    len: u64,
) -> Result<Bytes, JobReply>
    requires may { Allows (record { Asks = T.asks; Holds = T.holds }) (T.job steps.old) (phase (entries_of (T.mine steps.old))) (Read (Pin pin) file at len) }
    requires untold { told (entries_of (T.mine steps.old)) ≡ None }
    ensures job { T.job steps.new ≡ T.job steps.old }
    ensures seen { GoesOn (T.seen steps.old) (T.seen steps.new) }
    ensures later { T.later steps.old steps.new }
    ensures leaves { LeavesOthers file (entries_of (T.mine steps.old)) (entries_of (T.mine steps.new)) }
    ensures piece { MatchResult result (λ bytes. GotPiece pin file at len (entries_of (T.mine steps.old)) (entries_of (T.mine steps.new)) bytes)
        (λ reply. HasFailed pin (entries_of (T.mine steps.new)) reply) }
{
    match steps.apply(Step::Read {
        from: Reader::Pin(pin),
        file,
        at,
        len,
    }) {
        Reply::Piece(bytes) => Ok(bytes),
        Reply::Fault => Err(JobReply::Fault),
        Reply::Damaged(name, cause) => Err(JobReply::Damaged(name, cause, 0)),
        Reply::Memory => Err(JobReply::Memory),
        _ => unreachable!(),
    }
}

fn add(bytes: &mut Vec<u8>, piece: &Bytes) -> Result<(), AllocError>
    ensures { OnOk result (bytes.new.items ≡ bytes.old.items ++ piece.now) }
{
    bytes.extend_from_slice(piece.as_slice())
}

// Reads a file that isn't empty to its end.
#[tactic(auto, using(table_jobs::proofs::Seen::goes_on, table_jobs::proofs::Seen::stays))]
fn read_file<T: Steps>(
    alloc: Global,
    steps: &mut T,
    pin: u64,
    file: u32,
    size: u64,
) -> Result<Bytes, JobReply>
    requires next { IsNext pin file size (phase (entries_of (T.mine steps.old))) }
    requires some { 0 < size }
    requires untold { told (entries_of (T.mine steps.old)) ≡ None }
    ensures job { T.job steps.new ≡ T.job steps.old }
    ensures seen { GoesOn (T.seen steps.old) (T.seen steps.new) }
    ensures later { T.later steps.old steps.new }
    ensures leaves { LeavesOthers file (entries_of (T.mine steps.old)) (entries_of (T.mine steps.new)) }
    ensures read { MatchResult result (λ bytes. HasRead file size (entries_of (T.mine steps.old)) (entries_of (T.mine steps.new)) bytes)
        (λ reply. HasFailed pin (entries_of (T.mine steps.new)) reply) }
{
    let mut bytes = Vec::new(alloc);
    let mut at: u64 = 0;
    while at < size {
        let len = MAX_PIECE.min(size - at);
        let piece = match read_piece(steps, pin, file, at, len) {
            Ok(piece) => piece,
            Err(reply) => return Err(reply),
        };
        let Ok(()) = add(&mut bytes, &piece) else {
            return Err(JobReply::Memory);
        };
        at += len;
    }
    Ok(Bytes::from_vec(bytes))
}

// Reads the file of this number, where those before it are read. An empty one needs no step.
fn read_next<T: Steps>(
    alloc: Global,
    steps: &mut T,
    pin: u64,
    sizes: &[u64],
    number: usize,
) -> Result<Bytes, JobReply>
    requires within { number < length sizes.now }
    requires so_far { HasReadUpTo pin number sizes.now (entries_of (T.mine steps.old)) }
    ensures job { T.job steps.new ≡ T.job steps.old }
    ensures seen { GoesOn (T.seen steps.old) (T.seen steps.new) }
    ensures later { T.later steps.old steps.new }
    ensures leaves { LeavesOthers number (entries_of (T.mine steps.old)) (entries_of (T.mine steps.new)) }
    ensures read { MatchResult result (λ bytes. HasReadNext pin number sizes.now (entries_of (T.mine steps.new)) bytes)
        (λ reply. HasFailed pin (entries_of (T.mine steps.new)) reply) }
{
    let size = sizes[number];
    if size == 0 {
        return Ok(Bytes::from_vec(Vec::new(alloc)));
    }
    let Ok(file) = u32::try_from(number) else {
        return Err(JobReply::Memory);
    };
    read_file(alloc, steps, pin, file, size)
}

/// Reads so many files of a view, from the first number on, where those before it are read. The view's files have these
/// sizes.
pub(crate) fn read_files<T: Steps>(
    alloc: Global,
    steps: &mut T,
    pin: u64,
    sizes: &[u64],
    first: usize,
    count: usize,
) -> Result<Vec<Bytes>, JobReply>
    requires within { first + count ≤ length sizes.now }
    requires so_far { HasReadUpTo pin first sizes.now (entries_of (T.mine steps.old)) }
    ensures job { T.job steps.new ≡ T.job steps.old }
    ensures seen { GoesOn (T.seen steps.old) (T.seen steps.new) }
    ensures later { T.later steps.old steps.new }
    ensures leaves { LeavesEarlier first (first + count) (entries_of (T.mine steps.old)) (entries_of (T.mine steps.new)) }
    ensures read { MatchResult result (λ texts. HasReadFiles pin first count sizes.now (entries_of (T.mine steps.new)) texts.items)
        (λ reply. HasFailed pin (entries_of (T.mine steps.new)) reply) }
{
    let mut texts = Vec::new(alloc);
    for i in 0..count {
        let text = match read_next(alloc, steps, pin, sizes, first + i) {
            Ok(text) => text,
            Err(reply) => return Err(reply),
        };
        let Ok(()) = texts.push(text) else {
            return Err(JobReply::Memory);
        };
    }
    Ok(texts)
}

fn push_sizes(parts: &[Part], sizes: &mut Vec<u64>) -> Result<(), AllocError>
    ensures { OnOk result (sizes.new.items ≡ sizes.old.items ++ map (λ part. part.length) parts.now) }
{
    for part in parts {
        sizes.push(part.length)?;
    }
    Ok(())
}

/// The sizes of a view's files, in the order of their numbers.
pub(crate) fn sizes_of(alloc: Global, groups: &[GroupParts]) -> Result<Vec<u64>, AllocError>
    ensures { IfOk result (λ sizes. sizes.items ≡ map (λ part. part.length) (flat_map (λ g. g.parts) groups.now)) }
{
    let mut sizes = Vec::new(alloc);
    for group in groups {
        push_sizes(group.parts.as_slice(), &mut sizes)?;
    }
    Ok(sizes)
}
