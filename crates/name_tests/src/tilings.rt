// The slots of keys, and the groups that share them.
ghost use Rattle.std.specs.Prelude.{◌≤◌};

use hudi_base::{GroupRef, InstantTime, Name};
use key_index::{TileError, Tiles, first, slot_of};
use std::alloc::{AllocError, Global};
use std::test::Fail;

// Keys and their slots.
const SLOTS: [(&str, u16); 9] = [
    ("", 8997),
    ("a", 60556),
    ("b", 61861),
    ("c", 61426),
    ("k1", 9409),
    ("k2", 8104),
    ("k3", 8539),
    ("foobar", 26600),
    ("é", 7681),
];

#[test]
fn keys_have_their_slots(rt: HostRuntime) {
    for (key, slot) in SLOTS {
        assert_eq!(rt; slot_of(key.as_bytes()), slot);
    }
}

fn first_tiles(alloc: Global, buckets: u16) -> Result<Tiles, Fail>
    requires some { 1 ≤ buckets }
    requires most { buckets ≤ 1024 }
{
    let partition = Name::from_text(alloc, "p=1")?;
    Ok(first(alloc, &partition, buckets)?)
}

// The bounds of the group that a slot has in a first tiling.
fn first_bounds(alloc: Global, buckets: u16, slot: u16) -> Result<(u16, u16), Fail> {
    let tiles = first_tiles(alloc, buckets.clamp(1, 1024))?;
    let group = tiles.group(slot);
    Ok((group.lo, group.hi))
}

// The number of buckets, a slot, and the bounds of its group.
const FIRST_BOUNDS: [(u16, u16, u16, u16); 9] = [
    (1, 0, 0, 65535),
    (1, 65535, 0, 65535),
    (2, 32767, 0, 32767),
    (2, 32768, 32768, 65535),
    (3, 0, 0, 21844),
    (3, 21845, 21845, 43689),
    (3, 65535, 43690, 65535),
    (1024, 63, 0, 63),
    (1024, 65535, 65472, 65535),
];

#[test]
fn first_groups_share_the_slots(rt: HostRuntime) -> Result<(), Fail> {
    for (buckets, slot, lo, hi) in FIRST_BOUNDS {
        assert_eq!(rt; first_bounds(rt.alloc(), buckets, slot)?, (lo, hi));
    }
    Ok(())
}

fn group_of(alloc: Global, bounds: (u16, u16)) -> Result<GroupRef, AllocError> {
    Ok(GroupRef {
        partition: Name::from_text(alloc, "p=1")?,
        lo: bounds.0,
        hi: bounds.1,
        born: InstantTime::FIRST,
    })
}

fn groups_of(alloc: Global, bounds: &[(u16, u16)]) -> Result<Vec<GroupRef>, AllocError> {
    let mut groups = Vec::new(alloc);
    for bounds in bounds {
        push_group(alloc, *bounds, &mut groups)?;
    }
    Ok(groups)
}

fn push_group(
    alloc: Global,
    bounds: (u16, u16),
    groups: &mut Vec<GroupRef>,
) -> Result<(), AllocError> {
    let group = group_of(alloc, bounds)?;
    groups.push(group)?;
    Ok(())
}

const TILING: u32 = 65536;

// The least slot that isn't had once, or `TILING`.
fn answer(
    tiles: &mut Tiles,
    alloc: Global,
    old: (u16, u16),
    new: &[(u16, u16)],
) -> Result<u32, Fail> {
    let old = groups_of(alloc, &[old])?;
    let new = groups_of(alloc, new)?;
    match tiles.replace(alloc, &old, &new) {
        Ok(()) => Ok(TILING),
        Err(TileError::NotATiling(slot)) => Ok(slot as u32),
        Err(TileError::Memory) => Err("memory")?,
    }
}

// What a first tiling of two groups answers, and how many groups it has then, with slots and without.
fn replaced(
    alloc: Global,
    old: (u16, u16),
    new: &[(u16, u16)],
) -> Result<(u32, usize, usize), Fail> {
    let mut tiles = first_tiles(alloc, 2)?;
    let answer = answer(&mut tiles, alloc, old, new)?;
    Ok((answer, tiles.groups().len(), tiles.empty().len()))
}

const HALF: (u16, u16) = (0, 32767);

const NONE: (u16, u16) = (1, 0);

// The bounds of an old group of the two, those of the new ones, and what comes of it.
const REPLACED: [((u16, u16), [(u16, u16); 3], (u32, usize, usize)); 11] = [
    (HALF, [(0, 100), NONE, NONE], (101, 2, 0)),
    (HALF, [(0, 100), (101, 32767), NONE], (TILING, 3, 1)),
    (HALF, [(101, 32767), NONE, (0, 100)], (TILING, 3, 1)),
    (HALF, [(0, 0), (1, 1), (2, 32767)], (TILING, 4, 0)),
    (HALF, [(0, 100), (100, 32767), NONE], (100, 2, 0)),
    (HALF, [(0, 32768), NONE, NONE], (32768, 2, 0)),
    (HALF, [(0, 100), (200, 32767), (150, 300)], (101, 2, 0)),
    (HALF, [NONE, NONE, NONE], (0, 2, 0)),
    ((32768, 65535), [(32768, 65534), NONE, NONE], (65535, 2, 0)),
    ((0, 32766), [NONE, NONE, NONE], (TILING, 2, 3)),
    ((0, 32766), [HALF, NONE, NONE], (0, 2, 0)),
];

#[test]
fn only_tilings_replace(rt: HostRuntime) -> Result<(), Fail> {
    for (old, new, after) in REPLACED {
        assert_eq!(rt; replaced(rt.alloc(), old, &new)?, after);
    }
    Ok(())
}

// How many groups without slots are left, after one came and went.
fn empty_left(alloc: Global) -> Result<usize, Fail> {
    let mut tiles = first_tiles(alloc, 2)?;
    let came = answer(&mut tiles, alloc, NONE, &[NONE, (7, 3)])?;
    let went = answer(&mut tiles, alloc, NONE, &[])?;
    if came != TILING || went != TILING || tiles.partition().as_str() != "p=1" {
        return Ok(9);
    }
    Ok(tiles.empty().len())
}

#[test]
fn groups_without_slots_come_and_go(rt: HostRuntime) -> Result<(), Fail> {
    assert_eq!(rt; empty_left(rt.alloc())?, 1);
    Ok(())
}

// Groups of two slots each.
fn pairs_of_slots(alloc: Global) -> Result<Vec<GroupRef>, AllocError> {
    let mut groups = Vec::new(alloc);
    for i in 0..32_768u32 {
        push_group(alloc, ((i * 2) as u16, (i * 2 + 1) as u16), &mut groups)?;
    }
    Ok(groups)
}

// How many groups a tiling has once they gave way to pairs of slots, and once those gave way to one group.
fn cut_and_joined(alloc: Global) -> Result<(usize, usize), Fail> {
    let mut tiles = first_tiles(alloc, 2)?;
    let halves = groups_of(alloc, &[HALF, (32768, 65535)])?;
    let pairs = pairs_of_slots(alloc)?;
    let whole = groups_of(alloc, &[(0, 65535)])?;
    tiles.replace(alloc, &halves, &pairs)?;
    let cut = tiles.groups().len();
    tiles.replace(alloc, &pairs, &whole)?;
    Ok((cut, tiles.groups().len()))
}

// In the square of the number of groups it wouldn't end in time.
#[test]
fn many_groups_give_way_at_once(rt: HostRuntime) -> Result<(), Fail> {
    assert_eq!(rt; cut_and_joined(rt.alloc())?, (32_768, 1));
    Ok(())
}
