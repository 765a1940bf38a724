// The jobs of one lane on a board.
ghost use Rattle.std.specs.Prelude.{◌≡◌};

use crate::Board;
use hudi_base::{Clock, Store};
use table_history::{Job, Reply, Step, Steps, Work};

/// A board whose jobs are done one after another. Contracts see the board, and the job of the next steps.
#[derive(Drop)]
pub struct Solo<S: Store, C: Clock, W: Work> {
    board: Board<S, C, W>,
    job: Job,
}

impl<S: Store, C: Clock, W: Work> Solo<S, C, W> {
    /// The jobs on a board. Until a job is set, the next steps are recovery's, which has lane 0 and line 0.
    pub fn new(board: Board<S, C, W>) -> Solo<S, C, W>
        ensures board { result.board ≡ board }
        ensures job { result.job ≡ record { lane = 0; line = 0 } }
    {
        Solo {
            board,
            job: Job { lane: 0, line: 0 },
        }
    }

    /// Sets the job of the next steps.
    pub fn set_job(&mut self, lane: u32, line: u32)
        ensures board { self.new.board ≡ self.old.board }
        ensures job { self.new.job ≡ record { lane = lane; line = line } }
    {
        self.job = Job { lane, line };
    }

    /// The board, with the entries of all its jobs.
    pub fn into_board(self) -> Board<S, C, W>
        ensures { result ≡ self.board }
    {
        self.board
    }
}

impl<S: Store, C: Clock, W: Work> Work for Solo<S, C, W> {
    ghost asks = { W.asks };

    ghost holds = { W.holds };
}

impl<S: Store, C: Clock, W: Work> Steps for Solo<S, C, W> {
    ghost use Rattle.table_board.specs.Boards.{placed_own};
    ghost use Rattle.table_board.specs.Later.{IsLater, IsLaterSolo};
    ghost use Rattle.table_board.specs.LaterLaws.{alone_itself, alone_on, alone_props, later_itself, later_on};

    ghost props = { λ solo. solo.board.origin.props };

    ghost seen = { λ solo. solo.board.entries };

    ghost mine = { λ solo. placed_own solo.job solo.board.entries };

    ghost job = { λ solo. solo.job };

    ghost later = { λ first second. IsLaterSolo first.job second.job first.board.entries second.board.entries
        (IsLater first.board.origin second.board.origin (S.is_honest first.board.store)
        (S.is_honest second.board.store) (S.state first.board.store) (S.state second.board.store)
        (C.state first.board.clock) (C.state second.board.clock)) };

    ghost later_itself = { λ solo. alone_itself solo.job solo.board.entries _ (later_itself solo.board.origin
        (S.is_honest solo.board.store) (S.state solo.board.store) (C.state solo.board.clock)) };

    ghost later_on = { λ first second third. alone_on first.job second.job third.job first.board.entries
        second.board.entries third.board.entries _ _ _
        (later_on first.board.origin second.board.origin third.board.origin
        (S.is_honest first.board.store) (S.is_honest second.board.store) (S.is_honest third.board.store)
        (S.state first.board.store) (S.state second.board.store) (S.state third.board.store)
        (C.state first.board.clock) (C.state second.board.clock) (C.state third.board.clock)) };

    ghost later_props = { λ first second. alone_props first.job second.job first.board.entries second.board.entries
        first.board.origin second.board.origin (S.is_honest first.board.store) (S.is_honest second.board.store)
        (S.state first.board.store) (S.state second.board.store) (C.state first.board.clock)
        (C.state second.board.clock) };

    #[tactic(auto, using(crate::proofs::Lanes::goes_on, crate::proofs::Lanes::ends_with, crate::proofs::Lanes::placed_more, crate::proofs::Lanes::own_of_placed))]
    fn apply(&mut self, step: Step) -> Reply {
        self.board.step(self.job, step)
    }
}
