//! Texts in UTF-8.
ghost use Rattle.std.specs.Prelude.{◌≡◌, IsUtf8, MatchOption};
ghost use Rattle.byte_fields.specs.Reading.{Gives};
ghost use Rattle.byte_fields.specs.Prefixed.{text_at, long_length_at};

use crate::field_error::FieldError;
use crate::prefixed::long_prefixed_at;

/// The text that these bytes are, if they are in UTF-8.
pub fn utf8_text(bytes: &[u8]) -> Option<&str>
    ensures { MatchOption result (¬ IsUtf8 bytes.now) (λ text. (text.now ≡ bytes.now) × IsUtf8 bytes.now) }
{
    std::str::from_utf8(bytes).ok()
}

/// A text behind its length as a long, as one item: Avro's string. A text that isn't in UTF-8 is bad.
#[tactic(auto, unfolding(crate::specs::Prefixed::text_at))]
pub fn long_text_at(bytes: &[u8]) -> Result<(&str, &[u8]), FieldError>
    ensures { Gives (λ x. (x.0.now, x.1.now)) result (text_at long_length_at bytes.now) }
{
    let (content, rest) = long_prefixed_at(bytes)?;
    match utf8_text(content) {
        Some(text) => Ok((text, rest)),
        None => Err(FieldError::bad(bytes)),
    }
}
