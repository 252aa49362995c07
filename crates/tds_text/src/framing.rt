// What is around the fields of a line (RFC 4180, section 2), and NULL.
ghost use Rattle.std.specs.Prelude.{◌≡◌, ◌+◌, ◌≤◌, ◌++◌, ℕ, List, length, take};
ghost use Rattle.tds_text.specs.Quoting.{after_comma, end_after, in_line, null_field};

/// What separates two fields.
pub const COMMA: u8 = b',';

/// What ends a line.
pub const LINE_END: [u8; 2] = *b"\r\n";

/// What comes before and after a field of characters.
pub const QUOTE: u8 = b'"';

/// The field of a value that is NULL.
pub const NULL: [u8; 4] = *b"NULL";

/// What comes before the digits of a binary field.
pub const BINARY_MARK: [u8; 2] = *b"0x";

/// How many bytes NULL has in its line at most: a comma, the word and the end of the line.
pub const NULL_ROOM: usize = 7;

/// Writes the comma before a field to the front of a slice, and returns how many bytes that is: none
/// before the first field.
#[inline]
pub fn write_comma(column: u16, to: &mut [u8]) -> usize
    requires { 1 ≤ length to.old }
    ensures most { result ≤ 1 }
    ensures text { (text : List ℕ) → take result to.new ++ text ≡ after_comma column text }
{
    if column == 0 {
        return 0;
    }
    to[0] = COMMA;
    1
}

/// Writes the end of the line after `made` bytes of a slice, if the field is the last, and returns
/// how many bytes there are then.
#[inline]
pub fn write_line_end(last: bool, made: usize, to: &mut [u8]) -> usize
    requires { made + 2 ≤ length to.old }
    ensures most { result ≤ made + 2 }
    ensures text { take result to.new ≡ take made to.old ++ end_after last }
{
    if !last {
        return made;
    }
    to[made] = LINE_END[0];
    to[made + 1] = LINE_END[1];
    made + 2
}

/// Writes NULL in its line to the front of a slice, and returns how many bytes it has.
#[inline]
pub fn write_null(column: u16, last: bool, to: &mut [u8]) -> usize
    requires room { NULL_ROOM ≤ length to.old }
    ensures most { result ≤ NULL_ROOM }
    ensures text { take result to.new ≡ in_line column last null_field }
{
    let start = write_comma(column, to);
    to[start] = NULL[0];
    to[start + 1] = NULL[1];
    to[start + 2] = NULL[2];
    to[start + 3] = NULL[3];
    write_line_end(last, start + 4, to)
}
