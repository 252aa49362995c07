//! The laws of cells and rows.

ghost use Rattle.std.specs.Prelude.{◌≡◌, ◌↔◌, ◌<◌, ◌++◌, ℕ, List, length, take};
ghost use Rattle.tds_values.specs.declared.kind.Kind.{Kind};
ghost use Rattle.tds_values.specs.declared.charset.Charset.{Charset};
ghost use Rattle.tds_packet.specs.declared.fault.Fault.{Fault};
ghost use Rattle.tds_packet.specs.Elements.{AreBytes, IsRefused, Spelt};
ghost use Rattle.tds_columns.specs.Description.{Column};
ghost use Rattle.tds_cells.specs.Cells.{Cell, CellPart, SpellsCell, WholeCell, cell, cell_start, shape};
ghost use Rattle.tds_cells.specs.Rows.{NbcRow, RowPart, RowToken, SpellsRow, WholeRow, row, row_start};

/// No bytes spell two cells of a kind, two ROWs of the same columns, or two NBCROWs.
pub fn one_reading()
    ensures cell { (charset : Charset) (kind : Kind) (a b : Cell) (bytes : List ℕ) →
        SpellsCell kind (shape charset kind) a bytes → SpellsCell kind (shape charset kind) b bytes → a ≡ b }
    ensures row { (token : RowToken) (charset : Charset) (columns : List Column) (a b : List Cell) (bytes : List ℕ) →
        SpellsRow token charset columns a bytes → SpellsRow token charset columns b bytes → a ≡ b }
{}

/// No cell begins with an element that is refused, and no ROW or NBCROW: what is refused is refused whatever follows.
pub fn refused_for_good()
    ensures cell { (charset : Charset) (kind : Kind) (column : ℕ) (front rest more : List ℕ) (at : CellPart)
        (fault : Fault) (value : Cell) → Spelt (cell column) (cell_start kind (shape charset kind)) front at →
        IsRefused (cell column) at rest fault →
        SpellsCell kind (shape charset kind) value ((front ++ take ((cell column).size at) rest) ++ more) → ⊥ }
    ensures row { (token : RowToken) (charset : Charset) (columns : List Column) (front rest more : List ℕ)
        (at : RowPart) (fault : Fault) (cells : List Cell) →
        Spelt (row charset) (row_start token charset columns) front at → IsRefused (row charset) at rest fault →
        SpellsRow token charset columns cells ((front ++ take ((row charset).size at) rest) ++ more) → ⊥ }
{}

/// Bytes spell a cell exactly if all of them are read as it, in any column; and so a ROW, or an NBCROW. Of an NBCROW there
/// are columns, as in each description.
pub fn read_as_spelt()
    ensures cell { (charset : Charset) (kind : Kind) (column : ℕ) (value : Cell) (bytes : List ℕ) → AreBytes bytes →
        SpellsCell kind (shape charset kind) value bytes
        ↔ Spelt (cell column) (cell_start kind (shape charset kind)) bytes (WholeCell value) }
    ensures row { (token : RowToken) (charset : Charset) (columns : List Column) (cells : List Cell) (bytes : List ℕ) →
        (token ≡ NbcRow → 0 < length columns) → AreBytes bytes → SpellsRow token charset columns cells bytes
        ↔ Spelt (row charset) (row_start token charset columns) bytes (WholeRow cells) }
{}
