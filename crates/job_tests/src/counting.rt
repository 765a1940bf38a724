// A gate that counts.
use crate::driving::{fresh, run};
use hudi_base::{Gate, Place, Sequence};
use std::cell::Cell;
use std::test::Fail;

/// How often each place was reached, in the order in which `Place` names them, and whether another lane was there.
#[derive(Drop)]
struct Counts {
    counts: Cell<[u32; 8]>,
    stray: Cell<bool>,
}

impl Gate for Counts {
    fn at(&self, lane: u32, place: Place) {
        let mut counts = self.counts.get();
        counts[place as usize] = counts[place as usize].saturating_add(1);
        self.counts.set(counts);
        if lane != 1 {
            self.stray.set(true);
        }
    }
}

// Two upserts and two snapshots.
const SCRIPT: &str = "{\"job\":\"snapshot\"}
{\"job\":\"upsert\",\"rows\":[{\"key\":\"a\",\"rank\":0,\"body\":\"\"}]}
{\"job\":\"upsert\",\"rows\":[{\"key\":\"b\",\"rank\":0,\"body\":\"\"}]}
{\"job\":\"snapshot\"}
";

#[test]
fn each_place_is_called_where_it_is(rt: HostRuntime) -> Result<(), Fail> {
    let alloc = rt.alloc();
    let gate = Counts {
        counts: Cell::new([0; 8]),
        stray: Cell::new(false),
    };
    let board = fresh(alloc, Sequence::new(alloc), 0)?;
    let (_board, _text) = run(alloc, board, SCRIPT, &gate)?;
    // Start and Done are the caller's, and no job plans.
    assert_eq!(rt; gate.counts.get(), [0, 2, 2, 2, 2, 0, 2, 0]);
    assert!(rt; !gate.stray.get());
    Ok(())
}
