//! Which file group a record key belongs to: the slot of a key, and the groups that share the slots of a partition.
//!
//! Its contract: `slot_of` is FNV-1a of 64 bits modulo 65,536, each slot of a `Tiles` has exactly one group, `replace`
//! refuses exactly what is no tiling, at the least slot that shows it, and `Buckets` tells the group of a slot in the
//! tiling that a partition begins with. It stands on `hudi_base`.
#![tactic(auto)]

mod buckets;
mod group_lists;
mod slots;
mod tile_error;
mod tiles;

pub use buckets::Buckets;
pub use slots::slot_of;
pub use tile_error::TileError;
pub use tiles::{Tiles, first};
