// The operations of steps on a store.
ghost use Rattle.std.specs.Prelude.{◌≡◌, ◌↔◌};
ghost use Rattle.table_board.specs.Outcomes.{Performs};

use hudi_base::{Added, Bytes, Fetched, Gone, Made, Name, Store};
use std::alloc::Global;
use table_history::{Cause, Op};

/// What the operation of a step came to.
#[derive(Drop)]
pub(crate) enum Outcome {
    Done,
    Piece(Bytes),
    Fault,
    Damaged(Cause),
    Memory,
}

fn read<S: Store>(alloc: Global, store: &mut S, name: &Name, at: u64, len: u64) -> Outcome
    ensures done { Performs (S.is_honest store.old) (Op.Read name.now at len)
        (S.state store.old) (S.state store.new) result }
    ensures honest { S.is_honest store.old ↔ S.is_honest store.new }
{
    match store.read(alloc, name, at, len) {
        Fetched::Piece(piece) => {
            if (piece.as_slice().len() as u64) < len {
                return Outcome::Damaged(Cause::Short);
            }
            Outcome::Piece(piece)
        }
        Fetched::Absent => Outcome::Damaged(Cause::Missing),
        Fetched::Failed => Outcome::Fault,
        Fetched::Memory => Outcome::Memory,
    }
}

/// Does an operation on a store. A read that gives fewer bytes than it wants, or finds no file, is damaged, and so is
/// the creation of a file that exists.
pub(crate) fn perform<S: Store>(alloc: Global, store: &mut S, op: &Op) -> Outcome
    ensures done { Performs (S.is_honest store.old) op.now (S.state store.old) (S.state store.new) result }
    ensures honest { S.is_honest store.old ↔ S.is_honest store.new }
{
    match op {
        Op::Nothing => Outcome::Done,
        Op::Create(name, bytes) => match store.create(alloc, name, bytes.as_slice()) {
            Made::Created => Outcome::Done,
            Made::Exists => Outcome::Damaged(Cause::Exists),
            Made::Failed => Outcome::Fault,
            Made::Memory => Outcome::Memory,
        },
        Op::Append(name, bytes) => match store.append(alloc, name, bytes.as_slice()) {
            Added::Added => Outcome::Done,
            Added::Failed => Outcome::Fault,
            Added::Memory => Outcome::Memory,
        },
        Op::Remove(name) => match store.remove(alloc, name) {
            Gone::Removed => Outcome::Done,
            Gone::Absent => Outcome::Damaged(Cause::Missing),
            Gone::Failed => Outcome::Fault,
            Gone::Memory => Outcome::Memory,
        },
        Op::Read(name, at, len) => read(alloc, store, name, *at, *len),
    }
}
