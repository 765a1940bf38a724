// The instants of a table.
ghost use Rattle.std.specs.Prelude.{◌≡◌, ◌≢◌, ◌≤◌, ◌<◌, ◌+◌, ℕ, OnOk, IfErr, MatchOption, length, []};
ghost use Rattle.std.specs.List.{Contains};
ghost use Rattle.file_names.specs.declared.file_name.Action.{Action};
ghost use Rattle.file_names.specs.declared.file_name.State.{State};
ghost use Rattle.instant_line.specs.Building.{IsBehind, IsAdded};
ghost use Rattle.instant_line.specs.Line.{line_of, AreInTime, IsLine, IsAt, IsAbsent, IsPending};
ghost use Rattle.instant_line.specs.Line.{FollowsIn, IsMoved, IsTakenBack};
ghost use Rattle.instant_line.specs.PendingList.{IsPlace, StandsAt};
ghost use Rattle.instant_line.specs.declared.line_error.LineError.TheVariants.{Memory};

use crate::LineError;
use crate::pending_list::PendingList;
use file_names::{Action, State};
use hudi_base::InstantTime;
use std::alloc::{AllocError, Global};
use std::marker::Model;

/// The instants of a table: those that are completed, and those that are pending. Contracts see the record `Held` of
/// specs/Line.antt: both lists in order of time, and the room that is reserved.
#[derive(Drop)]
pub struct Timeline {
    completed: Vec<(InstantTime, Action)>,
    pending: PendingList,
}

impl Model for Timeline {
    ghost use Rattle.std.specs.Prelude.{◌-◌, min, vec_len, vec_capacity};
    ghost use Rattle.instant_line.specs.Line.{Held, Line, IsLine, line_of};

    ghost Value = { Held };

    ghost view = { λ held. record {
      line = line_of held.completed.items held.pending.items;
      room = min (vec_capacity held.completed - vec_len held.completed) held.pending.room;
    } };

    ghost invariant = { λ held. IsLine (line_of held.completed.items held.pending.items) };
}

// Where the times begin that aren't before this one.
fn completed_place(completed: &[(InstantTime, Action)], t: InstantTime) -> usize
    requires { AreInTime (λ (x : ℕ × Action). x.0) completed.now }
    ensures within { result ≤ length completed.now }
    ensures place { IsPlace (λ (x : ℕ × Action). x.0) t completed.now result }
{
    completed.partition_point(|instant| instant.0.ms() < t.ms())
}

fn pending_place(pending: &[(InstantTime, Action, State)], t: InstantTime) -> usize
    requires { AreInTime (λ (x : ℕ × Action × State). x.0) pending.now }
    ensures within { result ≤ length pending.now }
    ensures place { IsPlace (λ (x : ℕ × Action × State). x.0) t pending.now result }
{
    pending.partition_point(|instant| instant.0.ms() < t.ms())
}

// The place of a pending instant, its action and its state.
fn find_pending(pending: &[(InstantTime, Action, State)], t: InstantTime) -> (usize, Action, State)
    requires order { AreInTime (λ (x : ℕ × Action × State). x.0) pending.now }
    requires some { (action : Action) × (state : State) × Contains pending.now (t, action, state) }
    ensures { StandsAt pending.now t result.0 (t, result.1, result.2) }
{
    let place = pending_place(pending, t);
    let (_, action, state) = pending[place];
    (place, action, state)
}

// The action and the state of the pending instant of this time.
fn pending_at(pending: &[(InstantTime, Action, State)], t: InstantTime) -> Option<(Action, State)>
    requires { AreInTime (λ (x : ℕ × Action × State). x.0) pending.now }
    ensures { MatchOption result
        ((action : Action) (state : State) → ¬ Contains pending.now (t, action, state))
        (λ found. Contains pending.now (t, found.0, found.1)) }
{
    let place = pending_place(pending, t);
    if place < pending.len() && pending[place].0.ms() == t.ms() {
        let (_, action, state) = pending[place];
        return Some((action, state));
    }
    None
}

// The action of the completed instant of this time.
fn completed_at(completed: &[(InstantTime, Action)], t: InstantTime) -> Option<Action>
    requires { AreInTime (λ (x : ℕ × Action). x.0) completed.now }
    ensures { MatchOption result
        ((action : Action) → ¬ Contains completed.now (t, action))
        (λ action. Contains completed.now (t, action)) }
{
    let place = completed_place(completed, t);
    if place < completed.len() && completed[place].0.ms() == t.ms() {
        return Some(completed[place].1);
    }
    None
}

impl Timeline {
    pub(crate) fn new(alloc: Global) -> Timeline
        ensures { result.line ≡ line_of [] [] }
    {
        Timeline {
            completed: Vec::new(alloc),
            pending: PendingList::new(alloc),
        }
    }

    // Puts an instant behind all others.
    pub(crate) fn push(
        &mut self,
        t: InstantTime,
        action: Action,
        state: State,
    ) -> Result<(), AllocError>
        requires { IsBehind self.old.line t }
        ensures { OnOk result (IsAdded self.old.line self.new.line t action state) }
    {
        match state {
            State::Completed => self.push_completed(t, action),
            _ => self.push_pending(t, action, state),
        }
    }

    fn push_completed(&mut self, t: InstantTime, action: Action) -> Result<(), AllocError>
        requires { IsBehind self.old.line t }
        ensures { OnOk result (IsAdded self.old.line self.new.line t action State.Completed) }
    {
        self.completed.push((t, action))?;
        Ok(())
    }

    fn push_pending(
        &mut self,
        t: InstantTime,
        action: Action,
        state: State,
    ) -> Result<(), AllocError>
        requires behind { IsBehind self.old.line t }
        requires unfinished { state ≢ State.Completed }
        ensures { OnOk result (IsAdded self.old.line self.new.line t action state) }
    {
        self.pending.push((t, action, state))?;
        Ok(())
    }

    /// The completed instants, in order of time.
    pub fn completed(&self) -> &[(InstantTime, Action)]
        ensures value { result.now ≡ self.now.line.completed }
        ensures line { IsLine self.now.line }
    {
        &self.completed
    }

    /// The instants that aren't completed, in order of time.
    pub fn pending(&self) -> &[(InstantTime, Action, State)]
        ensures value { result.now ≡ self.now.line.pending }
        ensures line { IsLine self.now.line }
    {
        self.pending.as_slice()
    }

    /// What the instant of this time does, and how far it is, if there is one. It takes no memory.
    pub fn find(&self, t: InstantTime) -> Option<(Action, State)>
        ensures { MatchOption result (IsAbsent self.now.line t) (λ found. IsAt self.now.line t found.0 found.1) }
    {
        if let Some((action, state)) = pending_at(self.pending.as_slice(), t) {
            return Some((action, state));
        }
        match completed_at(&self.completed, t) {
            Some(action) => Some((action, State::Completed)),
            None => None,
        }
    }

    /// Makes room for a move. The only error is want of memory; whatever it answers, no instant changes and no room is
    /// lost.
    pub fn reserve(&mut self) -> Result<(), LineError>
        ensures line { self.new.line ≡ self.old.line }
        ensures kept { self.old.room ≤ self.new.room }
        ensures ok { OnOk result (1 ≤ self.new.room) }
        ensures err { IfErr result (λ error. error ≡ Memory) }
    {
        self.completed.reserve(1)?;
        self.pending.reserve()?;
        Ok(())
    }

    /// Moves an instant to a state: a new one to requested, a requested one to inflight, an inflight one to completed.
    /// It takes no memory, and at most one place of the room. Where instants are requested and completed in order of
    /// time, it searches for their places and shifts nothing; else it shifts what stands behind.
    pub fn move_to(&mut self, t: InstantTime, action: Action, state: State)
        requires follows { FollowsIn self.old.line t action state }
        requires room { 1 ≤ self.old.room }
        ensures moved { IsMoved self.old.line self.new.line t action state }
        ensures room { self.old.room ≤ self.new.room + 1 }
    {
        match state {
            State::Requested => self.request(t, action),
            State::Inflight => self.start(t, action),
            State::Completed => self.complete(t, action),
        }
    }

    fn request(&mut self, t: InstantTime, action: Action)
        requires follows { FollowsIn self.old.line t action State.Requested }
        requires room { 1 ≤ self.old.room }
        ensures moved { IsMoved self.old.line self.new.line t action State.Requested }
        ensures room { self.old.room ≤ self.new.room + 1 }
    {
        let place = pending_place(self.pending.as_slice(), t);
        self.pending.insert(place, (t, action, State::Requested));
    }

    fn start(&mut self, t: InstantTime, action: Action)
        requires { FollowsIn self.old.line t action State.Inflight }
        ensures moved { IsMoved self.old.line self.new.line t action State.Inflight }
        ensures room { self.new.room ≡ self.old.room }
    {
        let (place, _, _) = find_pending(self.pending.as_slice(), t);
        self.pending.replace(place, (t, action, State::Inflight));
    }

    fn complete(&mut self, t: InstantTime, action: Action)
        requires follows { FollowsIn self.old.line t action State.Completed }
        requires room { 1 ≤ self.old.room }
        ensures moved { IsMoved self.old.line self.new.line t action State.Completed }
        ensures room { self.old.room ≤ self.new.room + 1 }
    {
        let (gone, _, _) = find_pending(self.pending.as_slice(), t);
        self.pending.remove(gone);
        let place = completed_place(&self.completed, t);
        match self.completed.insert(place, (t, action)) {
            Ok(()) => {}
            Err(_) => unreachable!(),
        }
    }

    /// Takes the last file of a pending instant back: an inflight instant is requested again, and a requested one is
    /// gone. It takes no memory.
    pub fn take_back(&mut self, t: InstantTime)
        requires { IsPending self.old.line t }
        ensures taken_back { IsTakenBack self.old.line self.new.line t }
        ensures room { self.old.room ≤ self.new.room }
    {
        let (place, action, state) = find_pending(self.pending.as_slice(), t);
        match state {
            State::Inflight => self.pending.replace(place, (t, action, State::Requested)),
            _ => self.pending.remove(place),
        }
    }
}
