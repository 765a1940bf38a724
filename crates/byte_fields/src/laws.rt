// What holds of the definitions of varints. The functions do nothing: their clauses are laws.
ghost use Rattle.std.specs.Prelude.{◌≡◌, ◌<◌, ◌≤◌, ◌^◌, ◌↔◌, ◌++◌, ℕ, ℤ, List, Ok, Err, FitsSigned, length};
ghost use Rattle.std.specs.Int.{w16, w32, w64};
ghost use Rattle.byte_fields.specs.Reading.{Settles};
ghost use Rattle.byte_fields.specs.declared.field_error.FieldError.TheVariants.{Short};
ghost use Rattle.byte_fields.specs.Varints.{IsVarint, EndsInside, varint, varint_at, zigzag, unzigzag, zigzag_at};

/// What is read is a varint of the number, and each varint of a number that fits is read, whatever follows it.
pub fn varints_are_read()
    ensures found { (w n : ℕ) (bytes rest : List ℕ) → w ≤ 64 → varint_at w bytes ≡ Ok (n, rest) → (groups : List ℕ) × (bytes ≡ groups ++ rest) × IsVarint groups n × (n < 2 ^ w) }
    ensures again { (w n : ℕ) (groups rest : List ℕ) → IsVarint groups n → n < 2 ^ w → varint_at w (groups ++ rest) ≡ Ok (n, rest) }
{}

/// The written form is a varint of its number, none of the same number is shorter, and no written form begins another.
pub fn written_varints()
    ensures form { (n : ℕ) → n < 2 ^ 64 → IsVarint (varint n) n }
    ensures shortest { (n : ℕ) (groups : List ℕ) → IsVarint groups n → length (varint n) ≤ length groups }
    ensures one { (m n : ℕ) (x y : List ℕ) → m < 2 ^ 64 → n < 2 ^ 64 → varint m ++ x ≡ varint n ++ y → (m ≡ n) × (x ≡ y) }
{}

/// Signed numbers of a width and numbers of as many bits are paired.
pub fn zigzag_pairs()
    ensures there { (z : ℤ) → unzigzag (zigzag z) ≡ z }
    ensures back { (n : ℕ) → zigzag (unzigzag n) ≡ n }
    ensures width16 { (z : ℤ) → FitsSigned w16 z ↔ (zigzag z < 2 ^ 16) }
    ensures width32 { (z : ℤ) → FitsSigned w32 z ↔ (zigzag z < 2 ^ 32) }
    ensures width64 { (z : ℤ) → FitsSigned w64 z ↔ (zigzag z < 2 ^ 64) }
{}

/// Bytes that come later change nothing but `Short`.
pub fn later_bytes()
    ensures varints { (w : ℕ) → Settles (varint_at w) }
    ensures zigzags { (w : ℕ) → Settles (zigzag_at w) }
{}

/// The bytes are said to be short exactly where they end inside a varint; whatever else is no varint of the width is bad.
pub fn short_varints()
    ensures { (w left : ℕ) (bytes : List ℕ) → (varint_at w bytes ≡ Err (Short left)) ↔ (EndsInside bytes × (left ≡ length bytes)) }
{}
