// A map with room that is made before it is needed.
ghost use Rattle.std.specs.Prelude.{◌≡◌, Some, None, IsSome, OnOk, MatchOption, unwrap_or, if◌then◌else◌, Bool, true, ◌==◌};
ghost use Rattle.std.specs.Ordering.{is_eq};
ghost use Rattle.table_core.specs.Rooms.{found};

use crate::written::TargetNumber;
use hudi_base::Target;
use std::alloc::{AllocError, Global};
use std::collections::BTreeMap;

/// Keys with a test that says which are the same: those of which none is less.
pub(crate) trait Key: Ord + Drop {
    ghost same: { Self → Self → Bool };

    ghost told_by_order: { (a b : Self) → is_eq (Self.cmp a b) ≡ same a b };

    ghost exact: { (a b : Self) → is_eq (Self.cmp a b) ≡ true → a ≡ b };
}

impl Key for u64 {
    ghost use Rattle.table_core.specs.KeyLaws.{same_number, equal_number};

    ghost same = { λ a b. a == b };

    ghost told_by_order = { same_number };

    ghost exact = { equal_number };
}

impl Key for Target {
    ghost use Rattle.table_core.specs.KeyLaws.{same_target, equal_target};
    ghost use Rattle.table_history.specs.Targets.{is_target};

    ghost same = { is_target };

    ghost told_by_order = { same_target };

    ghost exact = { equal_target };
}

impl Key for TargetNumber {
    ghost use Rattle.table_core.specs.KeyLaws.{same_target_number, equal_target_number};
    ghost use Rattle.table_core.specs.Keys.{is_number};

    ghost same = { is_number };

    ghost told_by_order = { same_target_number };

    ghost exact = { equal_target_number };
}

/// Values at keys. What stands for no value may be put in first, so that a value finds room.
#[derive(Drop)]
pub(crate) struct Rooms<K: Key, V> {
    pub(crate) slots: BTreeMap<K, V>,
}

#[tactic(auto, unfolding(crate::specs::Rooms::found))]
impl<K: Key, V: Drop> Rooms<K, V> {
    /// No values.
    pub(crate) fn new(alloc: Global) -> Rooms<K, V>
        ensures { (q : K) → found K.cmp result q ≡ None }
    {
        Rooms {
            slots: BTreeMap::new(alloc),
        }
    }

    /// The value at a key.
    pub(crate) fn get(&self, key: &K) -> Option<&V>
        ensures { MatchOption result (found K.cmp self.now key.now ≡ None)
            (λ v. found K.cmp self.now key.now ≡ Some v.now) }
    {
        match self.slots.get(key) {
            Some(v) => Some(v),
            None => None,
        }
    }

    /// Makes room at a key, by what stands for no value. The only error is want of memory.
    pub(crate) fn reserve(&mut self, key: K, empty: V) -> Result<(), AllocError>
        ensures room { OnOk result (IsSome (found K.cmp self.new key)) }
        ensures same { (q : K) → unwrap_or (found K.cmp self.new q) empty ≡ unwrap_or (found K.cmp self.old q) empty }
    {
        if self.slots.contains_key(&key) {
            return Ok(());
        }
        self.slots.insert(key, empty)?;
        Ok(())
    }

    /// Puts a value where there is room, and gives back what was there. It takes no memory.
    pub(crate) fn swap(&mut self, key: &K, value: &mut V)
        requires { IsSome (found K.cmp self.old key.now) }
        ensures value { (q : K) → found K.cmp self.new q
            ≡ (if K.same key.now q then Some value.old else found K.cmp self.old q) }
        ensures given_back { Some value.new ≡ found K.cmp self.old key.now }
    {
        match self.slots.get_mut(key) {
            Some(slot) => {
                std::mem::swap(slot, value);
            }
            None => unreachable!(),
        }
    }

    /// Takes a value out, with its room. It takes no memory.
    pub(crate) fn remove(&mut self, key: &K)
        ensures { (q : K) → found K.cmp self.new q ≡ (if K.same key.now q then None else found K.cmp self.old q) }
    {
        let _ = self.slots.remove(key);
    }
}
