// Decimal numbers.
ghost use Rattle.std.specs.Prelude.{◌≡◌, MatchOption, ℕ};
ghost use Rattle.table_forms.specs.Decimals.{IsDecimal, decimal_of};

// What the bytes write in decimal digits, where they aren't empty and begin neither with a plus nor with a zero before
// other bytes.
fn decimal_digits(text: &[u8]) -> Option<u64>
    ensures { MatchOption result ((n : ℕ) → ¬ IsDecimal n text.now) (λ n. IsDecimal n text.now) }
{
    if text.is_empty() {
        return None;
    }
    if text[0] == b'+' {
        return None;
    }
    if text.len() > 1 && text[0] == b'0' {
        return None;
    }
    match std::str::from_utf8(text) {
        Ok(digits) => digits.parse::<u64>().ok(),
        Err(_) => None,
    }
}

/// The number of 64 bits that the bytes write in decimal digits, without a sign and without a leading zero; `None`
/// where they write none.
pub fn read_decimal(text: &[u8]) -> Option<u64>
    ensures value { result ≡ decimal_of text.now }
    ensures exact { MatchOption result ((n : ℕ) → ¬ IsDecimal n text.now) (λ n. IsDecimal n text.now) }
{
    decimal_digits(text)
}
