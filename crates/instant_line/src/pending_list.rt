// The instants that aren't completed.
ghost use Rattle.std.specs.Prelude.{◌≡◌, ◌≤◌, ◌<◌, ◌+◌, ◌∷◌, ◌++◌, [], length, OnOk, OnErr, slice_set, insert, remove};
ghost use Rattle.instant_line.specs.PendingList.{Queue};

use file_names::{Action, State};
use hudi_base::InstantTime;
use std::alloc::{AllocError, Global};
use std::marker::Model;

/// A list whose first element goes as fast as its last: what is gone in front stays until there is no other room, and
/// is dropped once it is more than half.
#[derive(Drop)]
pub(crate) struct PendingList {
    all: Vec<(InstantTime, Action, State)>,
    gone: usize,
}

impl Model for PendingList {
    ghost use Rattle.std.specs.Prelude.{◌≤◌, ◌-◌, drop, vec_len, vec_capacity};
    ghost use Rattle.instant_line.specs.PendingList.{Queue};

    ghost Value = { Queue };

    ghost view = { λ list. record {
      items = drop list.gone list.all.items;
      room = vec_capacity list.all - vec_len list.all;
    } };

    ghost invariant = { λ list. list.gone ≤ vec_len list.all };
}

impl PendingList {
    pub(crate) fn new(alloc: Global) -> PendingList
        ensures { result.items ≡ [] }
    {
        PendingList {
            all: Vec::new(alloc),
            gone: 0,
        }
    }

    pub(crate) fn as_slice(&self) -> &[(InstantTime, Action, State)]
        ensures { result.now ≡ self.now.items }
    {
        &self.all[self.gone..]
    }

    pub(crate) fn push(&mut self, instant: (InstantTime, Action, State)) -> Result<(), AllocError>
        ensures ok { OnOk result (self.new.items ≡ self.old.items ++ instant ∷ []) }
        ensures err { OnErr result (self.new.items ≡ self.old.items) }
    {
        self.all.push(instant)?;
        Ok(())
    }

    pub(crate) fn insert(&mut self, place: usize, instant: (InstantTime, Action, State))
        requires within { place ≤ length self.old.items }
        requires room { 1 ≤ self.old.room }
        ensures items { self.new.items ≡ insert self.old.items place instant }
        ensures room { self.new.room + 1 ≡ self.old.room }
    {
        match self.all.insert(self.gone + place, instant) {
            Ok(()) => {}
            Err(_) => unreachable!(),
        }
    }

    pub(crate) fn replace(&mut self, place: usize, instant: (InstantTime, Action, State))
        requires { place < length self.old.items }
        ensures items { self.new.items ≡ slice_set self.old.items place instant }
        ensures room { self.new.room ≡ self.old.room }
    {
        self.all[self.gone + place] = instant;
    }

    pub(crate) fn remove(&mut self, place: usize)
        requires { place < length self.old.items }
        ensures items { self.new.items ≡ remove self.old.items place }
        ensures room { self.old.room ≤ self.new.room }
    {
        if place == 0 {
            self.gone += 1;
        } else {
            let _ = self.all.remove(self.gone + place);
        }
    }

    // Takes back the room of what is gone.
    fn close_up(&mut self)
        ensures items { self.new.items ≡ self.old.items }
        ensures room { self.old.room ≤ self.new.room }
    {
        let _ = self.all.drain(..self.gone);
        self.gone = 0;
    }

    // Makes room for one more.
    pub(crate) fn reserve(&mut self) -> Result<(), AllocError>
        ensures items { self.new.items ≡ self.old.items }
        ensures kept { self.old.room ≤ self.new.room }
        ensures room { OnOk result (1 ≤ self.new.room) }
    {
        if self.all.len() == self.all.capacity() && self.gone > self.all.len() / 2 {
            self.close_up();
        }
        self.all.reserve(1)
    }
}
