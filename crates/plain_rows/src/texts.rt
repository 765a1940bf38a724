// Texts of keys and bodies.
ghost use Rattle.std.specs.Prelude.{◌≡◌, ◌<◌, All};
ghost use Rattle.std.specs.Bool.{OnTrue};
ghost use Rattle.std.specs.Str.{is_utf8};
ghost use Rattle.plain_rows.specs.OwnRows.{is_sized_text};

fn is_text(bytes: &[u8]) -> bool
    ensures { result ≡ is_utf8 bytes.now }
{
    std::str::from_utf8(bytes).is_ok()
}

// Whether all of the bytes are ASCII, as those of most keys and bodies are.
fn are_ascii(bytes: &[u8]) -> bool
    ensures { OnTrue result (All (λ byte. byte < 128) bytes.now) }
{
    bytes.iter().all(|byte| *byte < 128)
}

// Whether the bytes are a text. Short ones are told sooner byte by byte.
#[tactic(auto, using(crate::proofs::TextParts::ascii_is_text))]
fn is_any_text(bytes: &[u8]) -> bool
    ensures { result ≡ is_utf8 bytes.now }
{
    if are_ascii(bytes) {
        true
    } else {
        is_text(bytes)
    }
}

/// Whether the bytes are a text, of at least and at most so many.
pub(crate) fn is_sized_text(least: usize, most: usize, bytes: &[u8]) -> bool
    ensures { result ≡ is_sized_text least most bytes.now }
{
    least <= bytes.len() && bytes.len() <= most && is_any_text(bytes)
}
