// How the values of a column are laid out in its cells, known once for all rows (MS-TDS, Data Stream Types).
ghost use Rattle.std.specs.Prelude.{◌≡◌, IsTrue};
ghost use Rattle.tds_text.specs.Fields.{conversion_of};
ghost use Rattle.tds_cells.specs.Cells.{LongShape, narrow};
ghost use Rattle.tds_cells.specs.Layouts.{IsLaidOut, shape_of_layout};
ghost use Rattle.tds_values.specs.Kind.{is_valid};

use tds_text::Content;
use tds_values::{Charset, Kind, Reach};

/// How the value of a cell is laid out in it, and what a long one holds.
#[derive(Clone, Copy)]
pub enum Layout {
    /// Without a length: each value has this number of bytes.
    Fixed(u16),
    /// After a length of one byte, which is 0 for NULL.
    Counted,
    /// A long value of this content, after a length of two bytes.
    Short(Content),
    /// A long value of this content, after a total, in chunks.
    Chunked(Content),
}

/// What a cell needs of its column: the kind of its values, and how they are laid out. It takes 8 bytes, so that one of many
/// is found without a product.
#[derive(Clone, Copy)]
pub struct CellFormat {
    pub kind: Kind,
    pub layout: Layout,
    pub ghost valid: { IsTrue (is_valid kind) },
}

// What single-byte text of a set holds.
fn narrow_content(charset: Charset) -> Content
    ensures { conversion_of result ≡ narrow charset }
{
    match charset {
        Charset::Windows1252 => Content::Windows1252,
        Charset::Utf8 => Content::Utf8,
    }
}

// How long values of this content are laid out.
fn lay_out_long(content: Content, reach: Reach) -> Layout
    ensures { shape_of_layout result ≡ LongShape (conversion_of content) reach }
{
    match reach {
        Reach::Short => Layout::Short(content),
        Reach::Chunked => Layout::Chunked(content),
    }
}

// How the values of a kind are laid out in their cells.
fn lay_out(kind: &Kind, charset: Charset) -> Layout
    requires { IsTrue (is_valid kind.now) }
    ensures { IsLaidOut charset kind.now result }
{
    match *kind {
        Kind::Binary(reach) => lay_out_long(Content::Binary, reach),
        Kind::Wide(reach) => lay_out_long(Content::Utf16, reach),
        Kind::Narrow(reach) => lay_out_long(narrow_content(charset), reach),
        _ => match kind.fixed_length() {
            Some(n) => Layout::Fixed(u16::from(n)),
            None => Layout::Counted,
        },
    }
}

impl CellFormat {
    /// What a cell of a kind needs if single-byte text is in this set.
    pub(crate) fn of(kind: Kind, charset: Charset) -> CellFormat
        requires { IsTrue (is_valid kind) }
        ensures kind { result.kind ≡ kind }
        ensures laid { IsLaidOut charset result.kind result.layout }
    {
        CellFormat {
            kind,
            layout: lay_out(&kind, charset),
        }
    }
}
