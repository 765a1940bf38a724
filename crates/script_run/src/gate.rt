// Places that nobody holds.
use hudi_base::{Gate, Place};

/// The gate of a run whose jobs go on at once at every place.
#[derive(Drop)]
pub(crate) struct OpenGate {}

impl Gate for OpenGate {
    fn at(&self, _lane: u32, _place: Place) {}
}
