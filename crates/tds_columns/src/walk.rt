// The walk over the columns of a description.
ghost use Rattle.std.specs.Prelude.{◌≡◌, ◌≤◌, ◌%◌, IsTrue, length};
ghost use Rattle.tds_columns.specs.View.{are_columns, column_at, column_size, is_column};
ghost use Rattle.tds_values.specs.Kind.{is_valid};

use crate::type_info::kind_at;
use tds_values::Kind;

/// A column: the kind of its values, and its name in UTF-16 units, at most 255, as the description has them.
#[derive(Clone, Copy, Debug)]
pub struct Column<'a> {
    pub kind: Kind,
    pub name: &'a [u8],
    pub ghost valid: { IsTrue (is_valid kind) },
    pub ghost even: { length name.now % 2 ≡ 0 },
    pub ghost few: { length name.now ≤ 510 },
}

// The column at the front of these bytes, and how many of them it has.
#[inline(always)]
fn column_at<'a>(bytes: &'a [u8]) -> (Column<'a>, usize)
    requires { IsTrue (is_column bytes.now) }
    ensures size { result.1 ≡ column_size bytes.now }
    ensures fits { result.1 ≤ length bytes.now }
    ensures column { record { kind = result.0.kind; name = result.0.name.now } ≡ column_at bytes.now }
{
    let (kind, rest) = kind_at(bytes[6], &bytes[7..]);
    let start = 8 + rest;
    let end = start + 2 * usize::from(bytes[start - 1]);
    let column = Column {
        kind,
        name: &bytes[start..end],
    };
    (column, end)
}

/// The columns of a description that are still to come, in order.
#[derive(Clone, Copy, Debug)]
pub struct Walk<'a> {
    pub(crate) rest: &'a [u8],
    pub(crate) left: usize,
    ghost whole: { IsTrue (are_columns left rest.now) },
}

impl<'a> Iterator for Walk<'a> {
    ghost use Rattle.std.specs.Iterator.{YieldsFirstBy, item_count};
    ghost use Rattle.tds_columns.specs.Walking.{column_value, columns_left};

    type Item = Column<'a>;

    ghost next_gives = { YieldsFirstBy column_value columns_left };

    ghost remaining = { item_count columns_left };

    #[inline(always)]
    fn next(&mut self) -> Option<Column<'a>> {
        if self.left == 0 {
            return None;
        }
        let (column, size) = column_at(self.rest);
        self.rest = &self.rest[size..];
        self.left -= 1;
        Some(column)
    }
}
