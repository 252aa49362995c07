// The header line of a set.
ghost use Rattle.std.specs.Prelude.{◌≡◌, ◌≤◌, ◌++◌, length, take, IfSome};
ghost use Rattle.tds_columns.specs.View.{columns_of};
ghost use Rattle.tds_csv.specs.Sinks.{IsWriting, PutsPiece};
ghost use Rattle.tds_export.specs.Tokens.{between, header_line};

use std::io::Write;
use tds_columns::Columns;
use tds_csv::{Sink, name_room, put_name, write_name};
use tds_packet::Stop;
use tds_text::framing::{LINE_END, write_line_end};

// Puts the empty line between two sets, if one has begun.
fn put_between<W: Write>(sink: &mut Sink<W>, begun: bool) -> Result<(), Stop>
    requires { IsWriting sink.old }
    ensures { PutsPiece W.contents sink.old sink.new (between begun) result }
{
    if begun { sink.line_end() } else { Ok(()) }
}

// Puts the names of columns with commas between them, and the end of their line.
fn put_names<W: Write>(sink: &mut Sink<W>, columns: Columns) -> Result<(), Stop>
    requires { IsWriting sink.old }
    ensures { let columns = columns_of columns.entry.bytes.now in
        PutsPiece W.contents sink.old sink.new (header_line columns) result }
{
    let count = columns.count();
    let mut index: u16 = 0;
    'names: for column in columns.walk() {
        put_name(column.name, index, index + 1 == count, sink)?;
        index += 1;
    }
    Ok(())
}

// Puts the header line of a set as `put_header` does, name by name.
#[inline(never)]
fn put_by_names<W: Write>(sink: &mut Sink<W>, begun: bool, columns: Columns) -> Result<(), Stop>
    requires { IsWriting sink.old }
    ensures { let columns = columns_of columns.entry.bytes.now in
        PutsPiece W.contents sink.old sink.new (between begun ++ header_line columns) result }
{
    put_between(sink, begun)?;
    put_names(sink, columns)
}

// Writes the header line of a set to the front of a slice as `put_header` puts it, and returns how many bytes it has. `None` if
// there may not be the room.
#[inline(always)]
fn write_header(begun: bool, columns: Columns, to: &mut [u8]) -> Option<usize>
    ensures most { IfSome result (λ made. made ≤ length to.old) }
    ensures text { let columns = columns_of columns.entry.bytes.now in
        IfSome result (λ made. take made to.new ≡ between begun ++ header_line columns) }
{
    if to.len() < LINE_END.len() {
        return None;
    }
    let count = columns.count();
    let mut index: u16 = 0;
    let mut made = write_line_end(begun, 0, to);
    'names: for column in columns.walk() {
        if to.len() - made < name_room(column.name.len()) {
            return None;
        }
        made += write_name(column.name, index, index + 1 == count, &mut to[made..]);
        index += 1;
    }
    Some(made)
}

/// Puts the header line of a set, after an empty line unless the set is the first.
pub(crate) fn put_header<W: Write>(
    sink: &mut Sink<W>,
    begun: bool,
    columns: Columns,
) -> Result<(), Stop>
    requires { IsWriting sink.old }
    ensures { let columns = columns_of columns.entry.bytes.now in
        PutsPiece W.contents sink.old sink.new (between begun ++ header_line columns) result }
{
    let waiting = sink.waiting() as usize;
    let room = sink.room();
    let Some(made) = write_header(begun, columns, sink.spare(room)) else {
        sink.commit(waiting, 0);
        return put_by_names(sink, begun, columns);
    };
    sink.keep(waiting, made)
}
