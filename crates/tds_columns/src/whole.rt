// A description that is whole in a slice.
ghost use Rattle.std.specs.Prelude.{IfSome};
ghost use Rattle.tds_columns.specs.Gather.{BeginsColumn, BeginsColumns, BeginsDescription};

use crate::metadata::{COUNT, LEAST_COLUMN, NO_METADATA, are_bytes};
use crate::type_info::{kind_of, rest_length};
use byteorder::{ByteOrder, LittleEndian};

/// A description at the front of a slice: how many columns and how many bytes it has.
#[derive(Clone, Copy)]
pub(crate) struct Front {
    pub(crate) count: u16,
    pub(crate) size: usize,
}

/// How many bytes the column at the front has. `None` if it isn't whole there or is refused.
pub(crate) fn column_size(bytes: &[u8]) -> Option<usize>
    ensures { IfSome result (BeginsColumn bytes.now) }
{
    if bytes.len() < LEAST_COLUMN {
        return None;
    }
    let byte = bytes[6];
    let rest = rest_length(byte)?;
    if bytes.len() < LEAST_COLUMN + rest {
        return None;
    }
    kind_of(byte, &bytes[7..7 + rest])?;
    let size = LEAST_COLUMN + rest + 2 * usize::from(bytes[7 + rest]);
    if bytes.len() < size {
        return None;
    }
    Some(size)
}

// How many bytes this number of columns have, one after the other from the front on. `None` if they aren't whole there or
// one is refused.
fn columns_size(bytes: &[u8], count: u16) -> Option<usize>
    ensures { IfSome result (BeginsColumns bytes.now count) }
{
    let mut size = 0;
    'columns: for _ in 0..count {
        size += column_size(&bytes[size..])?;
    }
    Some(size)
}

/// The description at the front. `None` if it isn't whole there, is refused, is longer than the room or is that of no metadata.
pub(crate) fn whole_description(bytes: &[u8], room: usize) -> Option<Front>
    ensures { IfSome result (λ front. BeginsDescription room bytes.now front.count front.size) }
{
    if bytes.len() < COUNT {
        return None;
    }
    are_bytes(bytes);
    let count = LittleEndian::read_u16(bytes);
    if count == 0 || count == NO_METADATA {
        return None;
    }
    let size = COUNT + columns_size(&bytes[COUNT..], count)?;
    if size > room {
        return None;
    }
    Some(Front { count, size })
}
