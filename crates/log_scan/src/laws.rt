// Laws of texts, over the definitions of specs/. The function does nothing: its clauses are the laws.
ghost use Rattle.std.specs.Prelude.{◌≡◌, ◌<◌, ℕ, ◌+◌, ◌++◌, List, [], Some, None, Ok, Err, length};
ghost use Rattle.std.specs.List.{AllByRecursion};
ghost use Rattle.log_block.specs.Form.{Fits};
ghost use Rattle.log_block.specs.Reading.{block_at};
ghost use Rattle.log_block.specs.declared.block.Block.{Block};
ghost use Rattle.log_block.specs.declared.block.BlockRead.TheVariants.{Torn, Bad};
ghost use Rattle.log_scan.specs.Texts.{bytes_of_blocks, scan_of};

/// Written blocks are scanned as these blocks, with nothing behind them, with a torn rest, or with a bad front, which is
/// bad at its place.
#[tactic(auto, using(crate::proofs::TextsOfBlocks::whole_text, crate::proofs::TextsOfBlocks::torn_text, crate::proofs::TextsOfBlocks::bad_text))]
pub fn texts_are_scanned()
    ensures whole { (blocks : List Block) → AllByRecursion Fits blocks
        → scan_of (bytes_of_blocks blocks) ≡ Ok (record { blocks = blocks; torn_at = None }) }
    ensures torn { (blocks : List Block) (rest : List ℕ) → AllByRecursion Fits blocks → block_at rest ≡ Torn → 0 < length rest
        → scan_of (bytes_of_blocks blocks ++ rest) ≡ Ok (record { blocks = blocks; torn_at = Some (length (bytes_of_blocks blocks)) }) }
    ensures bad { (blocks : List Block) (rest : List ℕ) (at : ℕ) → AllByRecursion Fits blocks → block_at rest ≡ Bad at → 0 < length rest
        → scan_of (bytes_of_blocks blocks ++ rest) ≡ Err (length (bytes_of_blocks blocks) + at) }
{}
