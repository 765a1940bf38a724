// A law of printed rows. The function does nothing: its clause is the law.
ghost use Rattle.script_texts.specs.Texts.{OwnRowsHaveTheirCells};

/// What is printed of a row of the table are its own cells: those that agree with its body, its key, its partition and
/// its rank.
pub fn own_rows_have_their_cells()
    ensures { OwnRowsHaveTheirCells }
{}
