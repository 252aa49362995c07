// A run of text on its way to a sink.
ghost use Rattle.std.specs.Prelude.{◌≡◌, ◌+◌, ◌<◌, ◌≤◌, [], ◌++◌, length};
ghost use Rattle.std.specs.Char.{encode_utf8};
ghost use Rattle.tds_text.specs.Quoting.{doubled};

use std::marker::Model;
use tds_text::encode::{put_character, put_quoted};

// At most `N` bytes of text.
#[derive(Drop)]
pub(crate) struct Run<const N: usize> {
    bytes: [u8; N],
    len: usize,
}

impl<const N: usize> Model for Run<N> {
    ghost use Rattle.std.specs.Prelude.{List, ℕ, ◌≤◌, take};

    ghost Value = { List ℕ };

    ghost view = { λ r. take r.len r.bytes };

    ghost invariant = { λ r. r.len ≤ N };
}

impl<const N: usize> Run<N> {
    pub(crate) fn new() -> Run<N>
        ensures { result ≡ [] }
    {
        Run {
            bytes: [0; N],
            len: 0,
        }
    }

    pub(crate) fn bytes(&self) -> &[u8]
        ensures value { result.now ≡ self.now }
        ensures fits { length self.now ≤ N }
    {
        &self.bytes[..self.len]
    }

    pub(crate) fn clear(&mut self)
        ensures { self.new ≡ [] }
    {
        self.len = 0;
    }

    // Adds a piece for which there is room.
    pub(crate) fn extend(&mut self, piece: &[u8])
        requires { length self.old + length piece.now ≤ N }
        ensures { self.new ≡ self.old ++ piece.now }
    {
        let from = self.len;
        let end = from + piece.len();
        let all = &mut self.bytes[..];
        all[from..end].copy_from_slice(piece);
        self.len = end;
    }

    // Replaces the text by a piece.
    pub(crate) fn set(&mut self, piece: &[u8])
        requires { length piece.now ≤ N }
        ensures { self.new ≡ piece.now }
    {
        self.clear();
        self.extend(piece);
    }

    // Adds a character in UTF-8.
    pub(crate) fn push_character(&mut self, code: u32)
        requires range { code < 1114112 }
        requires room { length self.old + 4 ≤ N }
        ensures { self.new ≡ self.old ++ encode_utf8 code }
    {
        self.len = put_character(&mut self.bytes[..], self.len, code);
    }

    // Adds a character in UTF-8, and a quote twice.
    pub(crate) fn push_quoted(&mut self, code: u32)
        requires range { code < 1114112 }
        requires room { length self.old + 4 ≤ N }
        ensures { self.new ≡ self.old ++ doubled (encode_utf8 code) }
    {
        self.len = put_quoted(&mut self.bytes[..], self.len, code);
    }
}

impl Run<3> {
    // The bytes, and after them at most three others.
    pub(crate) fn followed_by(&self, piece: &[u8]) -> Run<6>
        requires { length piece.now ≤ 3 }
        ensures { result ≡ self.now ++ piece.now }
    {
        let mut both: Run<6> = Run::new();
        both.extend(self.bytes());
        both.extend(piece);
        both
    }
}
