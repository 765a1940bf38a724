// Reading all that a source has.
ghost use Rattle.std.specs.Prelude.{◌≡◌, ◌<◌, ◌≤◌, length, IfOk, vec_len};
ghost use Rattle.script_run.specs.Ends.{ReadsAll};

use hudi_base::{Bytes, Got, Source};
use std::alloc::{AllocError, Global};

const MAX_SCRIPT_BYTES: usize = 67_108_864;

const PIECE_BYTES: usize = 65_536;

/// What reading to the end came to: all the bytes; more of them than a script may have, and the rest is left; a
/// failure of the source; or want of memory.
#[derive(Drop)]
pub enum Input {
    Whole(Bytes),
    TooLong,
    Failed,
    Memory,
}

/// Reads a source to its end, or until more bytes have come than a script may have.
pub(crate) fn read_all<R: Source>(alloc: Global, source: &mut R) -> Input
    ensures read { ReadsAll result (R.state source.old) (R.state source.new) }
    ensures count { (R.state source.old).faults ≤ (R.state source.new).faults }
{
    match buffer(alloc, PIECE_BYTES) {
        Ok(mut piece) => read_pieces(alloc, source, &mut piece),
        Err(_) => Input::Memory,
    }
}

// So many bytes to read into.
fn buffer(alloc: Global, size: usize) -> Result<Vec<u8>, AllocError>
    ensures { IfOk result (λ made. vec_len made ≡ size) }
{
    vec![in alloc; 0u8; size]
}

// Reads a source to its end, one piece after another.
#[tactic(auto, using(crate::proofs::EndParts::ends))]
fn read_pieces<R: Source>(alloc: Global, source: &mut R, piece: &mut [u8]) -> Input
    requires { 0 < length piece.old }
    ensures read { ReadsAll result (R.state source.old) (R.state source.new) }
    ensures count { (R.state source.old).faults ≤ (R.state source.new).faults }
{
    let mut bytes = Vec::new(alloc);
    'pieces: while bytes.len() <= MAX_SCRIPT_BYTES {
        match source.read(piece) {
            Got::Took(0) => return Input::Whole(Bytes::from_vec(bytes)),
            Got::Took(count) => {
                if bytes.extend_from_slice(&piece[..count]).is_err() {
                    return Input::Memory;
                }
            }
            Got::Failed => return Input::Failed,
        }
    }
    Input::TooLong
}
