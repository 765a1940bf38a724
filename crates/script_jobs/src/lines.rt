// Lines of bytes that may be no text.
ghost use Rattle.std.specs.Prelude.{◌≡◌, ◌∷◌, ◌<◌, [], length, MatchOption};
ghost use Rattle.std.specs.Str.Lines.{lines, strip_carriage_return};

/// The first line, and what follows its end. A line feed ends a line, and one carriage return before it goes with
/// it; the last line needs no end. There is no line where there are no bytes.
pub(crate) fn first_line(bytes: &[u8]) -> Option<(&[u8], &[u8])>
    ensures line { MatchOption result (bytes.now ≡ []) (λ first. lines bytes.now ≡ first.0.now ∷ lines first.1.now) }
    ensures shorter { MatchOption result (bytes.now ≡ []) (λ first. length first.1.now < length bytes.now) }
{
    match memchr::memchr(b'\n', bytes) {
        Some(end) => Some((without_return(&bytes[..end]), &bytes[end + 1..])),
        None if bytes.is_empty() => None,
        None => Some((bytes, &bytes[bytes.len()..])),
    }
}

// The bytes without the one carriage return at their end.
fn without_return(line: &[u8]) -> &[u8]
    ensures { result.now ≡ strip_carriage_return line.now }
{
    match line {
        [before @ .., b'\r'] => before,
        _ => line,
    }
}
