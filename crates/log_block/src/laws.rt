// What holds of written blocks and of what is read, whatever bytes follow. The functions do nothing: their clauses are laws on the definitions.
ghost use Rattle.std.specs.Prelude.{◌≡◌, ◌≢◌, ◌<◌, ℕ, List, ◌++◌, length, take, ◌↔◌};
ghost use Rattle.log_block.specs.Form.{block_bytes, Fits};
ghost use Rattle.log_block.specs.Answers.{IsTorn};
ghost use Rattle.log_block.specs.Reading.{block_at};
ghost use Rattle.log_block.specs.declared.block.Block.{Block};
ghost use Rattle.log_block.specs.declared.block.BlockRead.TheVariants.{Whole, Torn, Memory};

/// What was written is read again, whatever follows it.
pub fn written_is_read()
    ensures { (block : Block) (more : List ℕ) → Fits block → block_at (block_bytes block ++ more) ≡ Whole block (length (block_bytes block)) }
{}

/// Each block has one form, and no form is a prefix of another.
pub fn one_form()
    ensures { (a b : Block) (x y : List ℕ) → Fits a → Fits b → block_bytes a ++ x ≡ block_bytes b ++ y → (a ≡ b) × (x ≡ y) }
{}

/// Each proper prefix of a written block is torn.
pub fn cut_is_torn()
    ensures { (block : Block) (len : ℕ) → Fits block → len < length (block_bytes block) → block_at (take len (block_bytes block)) ≡ Torn }
{}

/// When bytes are torn, and that `block_at` is never `Memory`.
pub fn when_torn()
    ensures torn { (bytes : List ℕ) → (block_at bytes ≡ Torn) ↔ IsTorn bytes }
    ensures memory { (bytes : List ℕ) → block_at bytes ≢ Memory }
{}

/// Bytes that come later change no answer but `Torn`.
pub fn later_bytes()
    ensures { (bytes more : List ℕ) → block_at bytes ≢ Torn → block_at (bytes ++ more) ≡ block_at bytes }
{}
