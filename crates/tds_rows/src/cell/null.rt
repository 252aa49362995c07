// NULL, put in its line.
ghost use Rattle.tds_text.specs.Quoting.{in_line, null_field};
ghost use Rattle.tds_csv.specs.Sinks.{IsReady, PutsPiece};

use std::io::Write;
use tds_csv::Sink;
use tds_packet::Stop;
use tds_text::{NULL_ROOM, write_null};

/// Puts NULL in its line.
pub(crate) fn put_null<W: Write>(column: u16, last: bool, sink: &mut Sink<W>) -> Result<(), Stop>
    requires { IsReady sink.old }
    ensures { PutsPiece W.contents sink.old sink.new (in_line column last null_field) result }
{
    let mut text = [0u8; NULL_ROOM];
    let made = write_null(column, last, &mut text);
    sink.put(&text[..made])
}
