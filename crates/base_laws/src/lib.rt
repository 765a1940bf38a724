//! What holds of base files. The functions do nothing: their clauses are the laws.
//!
//! It stands on `base_file` for what is read and written, and on `base_cells` for the written form.
#![tactic(auto)]

ghost use Rattle.std.specs.Prelude.{◌≡◌, ◌<◌, [], true, ℕ, List, All, map, Ok};
ghost use Rattle.std.specs.List.{AllByRecursion};
ghost use Rattle.hudi_base.specs.declared.column.Column.{Column as Leaf};
ghost use Rattle.payload_merge.specs.Contents.{CellsReading};
ghost use Rattle.payload_merge.specs.declared.row.Row.{Row as TableRow};
ghost use Rattle.base_file.specs.BaseFiles.{row_key, keys_differ, base_at};
ghost use Rattle.base_file.specs.WrittenRows.{Meaning, IsFileOf};
ghost use Rattle.base_laws.specs.BaseForm.{IsBaseFile};
ghost use Rattle.base_laws.specs.Written.{IsTypedTable};

/// What is read as a base file of rows is one, and each base file of rows is read.
pub fn bases_are_read()
    ensures found { (columns : List Leaf) (reading : CellsReading) (partition bytes : List ℕ) (rows : List TableRow)
        → All (λ byte. byte < 256) bytes → base_at columns reading partition bytes ≡ Ok rows
        → IsBaseFile columns reading partition bytes rows }
    ensures again { (columns : List Leaf) (reading : CellsReading) (partition bytes : List ℕ) (rows : List TableRow)
        → IsBaseFile columns reading partition bytes rows → base_at columns reading partition bytes ≡ Ok rows }
{}

/// What is written of rows of one partition with distinct keys is read back as these rows. `IsTypedTable` says of the
/// numbers and the texts what the types of the code say.
pub fn written_bases_are_read()
    ensures { (m : Meaning) (rows : List TableRow) (partition bytes : List ℕ)
        → (written : IsFileOf m rows bytes) → IsTypedTable m.columns written.table
        → AllByRecursion (λ row. row.partition ≡ partition) rows → keys_differ [] (map row_key rows) ≡ true
        → base_at m.columns m.reading partition bytes ≡ Ok rows }
{}
