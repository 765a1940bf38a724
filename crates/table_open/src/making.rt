// The making of a table.
ghost use Rattle.std.specs.Prelude.{◌≡◌, ◌↔◌, [], ◌∷◌, ◌++◌, List, MatchResult, IfOk, IfSome, OnOk, length, None, Some, Ok, Err};
ghost use Rattle.hudi_base.specs.Faults.{CountsFault};
ghost use Rattle.hudi_base.specs.Files.{FileMap};
ghost use Rattle.hudi_base.specs.declared.operation.Operation.{Operation};
ghost use Rattle.table_board.specs.Boards.{table_of};
ghost use Rattle.table_board.specs.HonestRuns.{Stood};
ghost use Rattle.table_history.specs.Tables.{fresh};
ghost use Rattle.table_images.specs.Properties.{properties_name};
ghost use Rattle.table_open.specs.NewTables.{IsHonestFresh, IsNoneOrTable, Makes, making, refusal};
ghost use Rattle.table_open.specs.declared.making.OpenError.TheVariants.{StoreFault};
ghost use Rattle.table_props.specs.PropsTexts.{IsTold, Told as Properties, props_text, read_props, told_of};

use file_names::FileName;
use hudi_base::{Bytes, Clock, Made, Name, Store};
use std::alloc::{AllocError, Global};
use table_board::Board;
use table_core::Control;
use table_history::Work;
use table_props::Props;

/// Why there is no table to work on.
#[derive(Clone, Copy, Debug, PartialEq, Eq)]
pub enum OpenError {
    /// There was not enough memory.
    Memory,
    /// The store has a file of properties.
    TableExists,
    /// The store failed.
    StoreFault,
}

// The name of the file of a table's properties. The only error is want of memory.
fn properties_name(alloc: Global, table: &Name) -> Result<Name, AllocError>
    ensures { IfOk result (λ name. (props : Properties) → name ≡ properties_name (fresh props)) }
{
    match file_names::text(alloc, table, &FileName::Properties) {
        Ok(name) => Ok(name),
        Err(_) => Err(AllocError),
    }
}

// The bytes of that file. The only error is want of memory.
fn properties_text(alloc: Global, props: &Props) -> Result<Bytes, AllocError>
    ensures text { IfOk result (λ text. text ≡ props_text (told_of props.now)) }
    ensures reads_back { IsTold (told_of props.now)
        → OnOk result (read_props (props_text (told_of props.now)) ≡ Ok (told_of props.now)) }
{
    match table_props::text(alloc, props) {
        Ok(text) => Ok(text),
        Err(_) => Err(AllocError),
    }
}

/// Makes the file of a table's properties, with their written text, and does nothing else. `TableExists` comes exactly
/// where the store answered that this file exists, and `StoreFault` only where the store failed; an honest store is
/// as it was after each error.
pub fn init<S: Store>(alloc: Global, store: &mut S, props: &Props) -> Result<(), OpenError>
    ensures makes { Makes (S.is_honest store.old) (S.state store.old).told (S.state store.new).told
        (told_of props.now) (refusal result) }
    ensures honest { S.is_honest store.old ↔ S.is_honest store.new }
    ensures faults { CountsFault (S.state store.old).faults (S.state store.new).faults (result ≡ Err StoreFault) }
    ensures reads_back { IsTold (told_of props.now)
        → OnOk result (read_props (props_text (told_of props.now)) ≡ Ok (told_of props.now)) }
    ensures images { IsTold (told_of props.now) → OnOk result (IsNoneOrTable (told_of props.now)) }
{
    let Ok(name) = properties_name(alloc, &props.name) else {
        return Err(OpenError::Memory);
    };
    let Ok(text) = properties_text(alloc, props) else {
        return Err(OpenError::Memory);
    };
    match store.create(alloc, &name, text.as_slice()) {
        Made::Created => Ok(()),
        Made::Exists => Err(OpenError::TableExists),
        Made::Failed => Err(OpenError::StoreFault),
        Made::Memory => Err(OpenError::Memory),
    }
}

/// Makes a table in a store that has none, by `init`, and gives a board of it without entries. With an error the store
/// and the clock are given back, and the error is that of `init`. The clock isn't asked.
pub fn create_table<S: Store, C: Clock, W: Work>(
    alloc: Global,
    store: S,
    clock: C,
    props: Props,
) -> Result<Board<S, C, W>, (OpenError, S, C)>
    requires { IsTold (told_of props) }
    ensures entries { IfOk result (λ board. board.entries ≡ []) }
    ensures props { IfOk result (λ board. board.origin.props ≡ told_of props) }
    ensures makes { MatchResult result
        (λ board. Makes (S.is_honest store) (S.state store).told (S.state board.store).told (told_of props) None)
        (λ left. Makes (S.is_honest store) (S.state store).told (S.state left.1).told (told_of props) (Some left.0)) }
    ensures honest { MatchResult result (λ board. S.is_honest store ↔ S.is_honest board.store)
        (λ left. S.is_honest store ↔ S.is_honest left.1) }
    ensures faults { MatchResult result
        (λ board. CountsFault (S.state store).faults (S.state board.store).faults ⊥)
        (λ left. CountsFault (S.state store).faults (S.state left.1).faults (left.0 ≡ StoreFault)) }
    ensures clock { MatchResult result (λ board. board.clock ≡ clock) (λ left. left.2 ≡ clock) }
    ensures images { OnOk result (IsNoneOrTable (told_of props)) }
    // What the board counts from: the state of the store after the file was made.
    ensures counted { IfOk result (λ board. board.origin.faults ≡ (S.state board.store).faults) }
    ensures done { IfOk result (λ board. IfSome (S.state board.store).told.operations
        (λ operations. board.origin.done ≡ length operations)) }
    // Where the store was honest and told that it had no file, the board stood.
    ensures stood { IfOk result (λ board. (start : FileMap) (before : List Operation)
        → IsHonestFresh (S.is_honest store) (S.state store).told start before
        → Stood (S.is_honest board.store) (S.state board.store).told (table_of board.origin) board.origin.done start
        (before ++ making (told_of props) ∷ [])) }
{
    let mut store = store;
    match init(alloc, &mut store, &props) {
        Ok(()) => Ok(Board::new(alloc, store, clock, Control::fresh(alloc, props))),
        Err(error) => Err((error, store, clock)),
    }
}
