ghost use Rattle.std.specs.Prelude.{◌≡◌, ◌+◌, ◌≤◌, ◌++◌, [], length};
ghost use Rattle.triplet_text.specs.Printing.{joined};

use std::marker::Model;

/// The most bytes that a `Text` has room for.
pub const TEXT_ROOM: usize = 160;

/// Bytes in place, with room for `ROOM` of them, so that they take no memory.
#[derive(Drop)]
pub struct InPlace<const ROOM: usize> {
    bytes: [u8; ROOM],
    len: usize,
}

/// A text of at most `TEXT_ROOM` bytes.
pub type Text = InPlace<TEXT_ROOM>;

impl<const ROOM: usize> Model for InPlace<ROOM> {
    ghost use Rattle.std.specs.Prelude.{◌≤◌, List, ℕ, take};

    ghost Value = { List ℕ };

    ghost view = { λ t. take t.len t.bytes };

    ghost invariant = { λ t. t.len ≤ ROOM };
}

impl<const ROOM: usize> InPlace<ROOM> {
    /// No bytes yet.
    pub fn new() -> Self
        ensures { result ≡ [] }
    {
        InPlace {
            bytes: [0; ROOM],
            len: 0,
        }
    }

    /// The bytes that were added.
    pub fn bytes(&self) -> &[u8]
        ensures text { result.now ≡ self.now }
        ensures short { length result.now ≤ ROOM }
    {
        &self.bytes[..self.len]
    }

    /// How many more bytes it has room for.
    pub fn room(&self) -> usize
        ensures { length self.now + result ≡ ROOM }
    {
        ROOM - self.len
    }

    /// Adds the piece at the end. There is room for it.
    pub fn push(&mut self, piece: &[u8])
        requires { length self.old + length piece.now ≤ ROOM }
        ensures { self.new ≡ self.old ++ piece.now }
    {
        let end = self.len + piece.len();
        let bytes = &mut self.bytes[..];
        bytes[self.len..end].copy_from_slice(piece);
        self.len = end;
    }

    /// Takes all bytes away.
    pub fn clear(&mut self)
        ensures { self.new ≡ [] }
    {
        self.len = 0;
    }
}

impl Text {
    /// One more term, with a plus before it unless it is the first or begins with a minus.
    pub(crate) fn join(&mut self, term: &[u8])
        requires { length self.old + length term.now + 1 ≤ TEXT_ROOM }
        ensures text { self.new ≡ joined self.old term.now }
        ensures short { length self.new ≤ length self.old + length term.now + 1 }
    {
        if let [first, ..] = term {
            if self.len > 0 && *first != b'-' {
                self.push(b"+");
            }
            self.push(term);
        }
    }
}
