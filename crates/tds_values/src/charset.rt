// The character set of text of one byte a character.

/// The character set of `char`, `varchar` and `varchar(max)`: which characters their bytes are.
#[derive(Clone, Copy)]
pub enum Charset {
    /// Code page 1252, in which each byte is a character.
    Windows1252,
    /// UTF-8, as under a collation whose name ends in `_UTF8`.
    Utf8,
}
