// Adding to the end of a text.
ghost use Rattle.std.specs.Prelude.{◌≡◌, ◌++◌, IsUtf8};
ghost use Rattle.hudi_base.specs.InstantTime.{time_text};
ghost use Rattle.script_texts.specs.Putting.{Puts};
ghost use Rattle.script_texts.specs.Texts.{time_or_none};

use hudi_base::InstantTime;
use std::alloc::AllocError;

// Bytes that are a text, as one.
fn text_of(bytes: &[u8]) -> &str
    requires { IsUtf8 bytes.now }
    ensures { result.now ≡ bytes.now }
{
    match std::str::from_utf8(bytes) {
        Ok(text) => text,
        Err(_) => unreachable!(),
    }
}

/// Adds bytes.
pub(crate) fn put_bytes(out: &mut Vec<u8>, bytes: &[u8]) -> Result<(), AllocError>
    ensures { Puts result out.old.items out.new.items bytes.now }
{
    out.extend_from_slice(bytes)
}

/// Adds a text.
pub(crate) fn put_text(out: &mut Vec<u8>, text: &str) -> Result<(), AllocError>
    ensures { Puts result out.old.items out.new.items text.now }
{
    put_bytes(out, text.as_bytes())
}

/// Adds a word and the digits of a time.
pub(crate) fn put_timed(out: &mut Vec<u8>, word: &str, time: InstantTime) -> Result<(), AllocError>
    ensures { Puts result out.old.items out.new.items (word.now ++ time_text time) }
{
    put_text(out, word)?;
    put_text(out, text_of(&time.text()))
}

/// Adds the digits of a time, if there is one.
pub(crate) fn put_time_or_none(
    out: &mut Vec<u8>,
    time: Option<InstantTime>,
) -> Result<(), AllocError>
    ensures { Puts result out.old.items out.new.items (time_or_none time) }
{
    match time {
        Some(time) => put_text(out, text_of(&time.text())),
        None => put_text(out, "none"),
    }
}
