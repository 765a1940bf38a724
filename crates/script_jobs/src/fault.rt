// Why the JSON value of a line is no job. Names lie in the line.
use std::alloc::AllocError;

#[derive(Clone, Copy)]
pub(crate) enum Fault<'a> {
    Memory,
    Object,
    Field(&'a str),
}

impl From<AllocError> for Fault<'_> {
    ghost use Rattle.std.specs.Prelude.{◌≡◌};
    ghost use Rattle.script_jobs.specs.declared.fault.Fault.TheVariants.{Memory};

    ghost from_gives = { λ _ fault. fault ≡ Memory };

    fn from(_: AllocError) -> Self {
        Fault::Memory
    }
}
