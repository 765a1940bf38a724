// Tables that are made in a store.
ghost use Rattle.std.specs.Prelude.{IfOk};
ghost use Rattle.table_props.specs.PropsTexts.{IsTold, told_of};

use crate::driving::{AnyWork, MemBoard};
use hudi_base::{Name, Sequence, Store};
use std::alloc::{AllocError, Global};
use std::test::Fail;
use store_mem::{MemClock, MemStore};
use table_open::{OpenError, create_table};
use table_props::{Props, parse_props};

const WRITTEN: &str = "hoodie.table.name=t
hoodie.table.type=MERGE_ON_READ
hoodie.table.version=6
hoodie.table.recordkey.fields=id
hoodie.table.partition.fields=p
hoodie.timeline.layout.version=1
profile.buckets=2
profile.schema={\"fields\":[{\"name\":\"id\",\"type\":\"string\"},{\"name\":\"p\",\"type\":\"string\"}],\"name\":\"r\",\"type\":\"record\"}
";

fn props(alloc: Global) -> Result<Props, AllocError>
    ensures { IfOk result (λ props. IsTold (told_of props)) }
{
    match parse_props(alloc, WRITTEN.as_bytes()) {
        Ok(props) => Ok(props),
        Err(_) => Err(AllocError),
    }
}

// A table made in this store, or why it isn't, with the store as it is then.
fn made(
    alloc: Global,
    store: MemStore,
) -> Result<Result<MemBoard, (OpenError, MemStore)>, AllocError> {
    let clock = MemClock::at(0);
    match create_table::<MemStore, MemClock, AnyWork>(alloc, store, clock, props(alloc)?) {
        Ok(board) => Ok(Ok(board)),
        Err((error, store, _clock)) => Ok(Err((error, store))),
    }
}

#[test]
fn a_table_is_its_properties_at_first(rt: HostRuntime) -> Result<(), Fail> {
    let alloc = rt.alloc();
    let store = MemStore::with_failures(alloc, Sequence::new(alloc), 0);
    let board = made(alloc, store)?.map_err(|_| "no table")?;
    let (store, _clock, marks) = board.close();
    assert!(rt; marks.is_empty());
    assert_eq!(rt; store.operations().len(), 1);
    let name = Name::from_text(alloc, ".hoodie/hoodie.properties")?;
    assert_eq!(rt; store.file(&name), Some(WRITTEN.as_bytes()));
    let (error, store) = made(alloc, store)?.err().ok_or("two tables")?;
    assert_eq!(rt; error, OpenError::TableExists);
    assert_eq!(rt; store.operations().len(), 1);
    Ok(())
}

#[test]
fn a_table_that_fails_to_be_made_leaves_no_file(rt: HostRuntime) -> Result<(), Fail> {
    let alloc = rt.alloc();
    let failing = Sequence::from_vec(vec![in alloc; 0u64]?);
    let store = MemStore::with_failures(alloc, failing, 0);
    let (error, store) = made(alloc, store)?.err().ok_or("a table")?;
    assert_eq!(rt; error, OpenError::StoreFault);
    assert_eq!(rt; store.file_count(), 0);
    assert_eq!(rt; store.faults(), 1);
    Ok(())
}
