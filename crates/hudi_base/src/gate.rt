// Places in a job at which a caller may hold it.

/// A place in a job: before its first step, after the steps that begin, claim, append, plan and pin, before the
/// one that finishes, and after its last.
#[derive(Clone, Copy, Debug, PartialEq, Eq)]
pub enum Place {
    Start,
    AfterBegin,
    AfterEnter,
    AfterAppend,
    BeforeFinish,
    AfterPlan,
    AfterPin,
    Done,
}

/// What a job calls at its places. It changes nothing and answers nothing; it may take its time.
pub trait Gate {
    /// The job of this lane is at this place.
    fn at(&self, lane: u32, place: Place);
}
