// What holds of the definitions. The functions do nothing: their clauses are laws.
ghost use Rattle.std.specs.Prelude.{◌≡◌, ◌<◌, ◌≤◌, ◌+◌, ◌*◌, ◌^◌, ◌++◌, Ok, ℕ, List, Bool, length, All};
ghost use Rattle.std.specs.List.{flat_map, AllByRecursion};
ghost use Rattle.hudi_base.specs.declared.column.Column.{Column as Leaf};
ghost use Rattle.hudi_base.specs.declared.value.Value.{Value as Cell};
ghost use Rattle.parquet_pages.specs.Forms.{IsLevels, IsPage};
ghost use Rattle.parquet_pages.specs.Levels.{levels_body, levels_bytes, levels_at};
ghost use Rattle.parquet_pages.specs.Plain.{value_bytes};
ghost use Rattle.parquet_pages.specs.Pages.{page_bytes, FitsPage, IsTyped, page_at};

/// What is read as levels are levels, with the bytes that are left behind them, and any are read, whatever follows them.
pub fn levels_are_runs()
    ensures found { (count : ℕ) (bytes rest : List ℕ) (levels : List Bool) → All (λ byte. byte < 256) bytes →
        levels_at count bytes ≡ Ok (levels, rest) →
        (prefix : List ℕ) × (bytes ≡ prefix ++ rest) × IsLevels levels prefix × (length levels ≡ count) }
    ensures again { (levels : List Bool) (prefix rest : List ℕ) → IsLevels levels prefix →
        levels_at (length levels) (prefix ++ rest) ≡ Ok (levels, rest) }
{}

/// What is read as a page of cells is one, and each page is read, whatever follows it, up to its last byte.
pub fn pages_are_read()
    ensures found { (column : Leaf) (bytes : List ℕ) (cells : List Cell) (n : ℕ) → All (λ byte. byte < 256) bytes →
        page_at column bytes ≡ Ok (cells, n) →
        (page rest : List ℕ) × (bytes ≡ page ++ rest) × (length page ≡ n) × IsPage column cells page }
    ensures again { (column : Leaf) (cells : List Cell) (page rest : List ℕ) → IsPage column cells page →
        page_at column (page ++ rest) ≡ Ok (cells, length page) }
{}

/// Written levels are read back, whatever follows them.
pub fn written_levels_are_read()
    ensures { (levels : List Bool) (rest : List ℕ) → length levels < 2 ^ 63 → length (levels_body levels) < 2 ^ 32 →
        levels_at (length levels) (levels_bytes levels ++ rest) ≡ Ok (levels, rest) }
{}

/// A written page is read back, whatever follows it, up to its last byte.
pub fn written_pages_are_read()
    ensures { (column : Leaf) (cells : List Cell) (rest : List ℕ) → FitsPage column cells →
        AllByRecursion IsTyped cells →
        page_at column (page_bytes column cells ++ rest) ≡ Ok (cells, length (page_bytes column cells)) }
{}

/// How long written levels and a written page are at most, so that a caller can see that they fit.
pub fn written_sizes()
    ensures levels { (levels : List Bool) → length (levels_body levels) ≤ 11 * length levels }
    ensures pages { (column : Leaf) (cells : List Cell) →
        length (page_bytes column cells) ≤ 84 + 12 * length cells + length (flat_map value_bytes cells) }
{}
