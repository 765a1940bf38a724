// Writing all of a text.
ghost use Rattle.std.specs.Prelude.{◌≡◌, ◌≤◌, MatchBool};
ghost use Rattle.script_run.specs.Ends.{Writes, WritesPrefix};

use hudi_base::{Sent, Sink};

/// Writes all of the bytes. Where the sink fails, a prefix of them was written, not all.
#[tactic(auto, using(crate::proofs::EndParts::ends))]
pub(crate) fn write_all<W: Sink>(sink: &mut W, bytes: &[u8]) -> bool
    ensures written { MatchBool result
        (Writes (W.state sink.old).written (W.state sink.new).written bytes.now)
        (WritesPrefix (W.state sink.old) (W.state sink.new) bytes.now) }
{
    let mut done = 0;
    while done < bytes.len() {
        match sink.write(&bytes[done..]) {
            Sent::Took(count) => done += count,
            Sent::Failed => return false,
        }
    }
    true
}
