ghost use Rattle.std.specs.Prelude.{◌≡◌, ◌↔◌, ◌≤◌, IsSome, IfSome, IsTrue, length};
ghost use Rattle.atom_expand.specs.Labels.{is_label_byte, IsLabel, with_zeros};

use crate::LABEL_LENGTH;
use std::marker::Model;

/// The name of a site: 1 to `LABEL_LENGTH` bytes, each a letter of ASCII, a digit or `_`. It is seen as these bytes.
#[derive(Clone, Copy, Debug)]
pub struct Label {
    bytes: [u8; LABEL_LENGTH],
    len: usize,
}

impl Model for Label {
    ghost use Rattle.std.specs.Prelude.{List, ℕ, take};

    ghost Value = { List ℕ };

    ghost use Rattle.atom_expand.specs.Padding.{IsPadded, padded, padded_back};

    ghost view = { λ a. take a.len a.bytes };

    ghost invariant = { λ a. IsPadded a.bytes a.len };

    ghost inverse = { padded };

    ghost inverse_ok = { padded_back };
}

impl Label {
    /// The label that is written so. None exactly where the bytes are no label.
    pub fn of(bytes: &[u8]) -> Option<Label>
        ensures some { IsSome result ↔ IsLabel bytes.now }
        ensures value { IfSome result (λ label. label ≡ bytes.now) }
    {
        if !is_label(bytes) {
            return None;
        }
        Some(Label {
            bytes: in_place(bytes),
            len: bytes.len(),
        })
    }

    /// Its bytes.
    pub fn bytes(&self) -> &[u8]
        ensures value { result.now ≡ self.now }
        // What is true of every label.
        ensures label { IsLabel self.now }
    {
        &self.bytes[..self.len]
    }
}

/// The bytes, and zeros behind them.
fn in_place(bytes: &[u8]) -> [u8; LABEL_LENGTH]
    requires { length bytes.now ≤ LABEL_LENGTH }
    ensures { result ≡ with_zeros bytes.now (length bytes.now) }
{
    let mut place = [0; LABEL_LENGTH];
    place[..bytes.len()].copy_from_slice(bytes);
    place
}

fn is_label(bytes: &[u8]) -> bool
    ensures { IsTrue result ↔ IsLabel bytes.now }
{
    !bytes.is_empty()
        && bytes.len() <= LABEL_LENGTH
        && bytes.iter().all(|byte| is_label_letter(*byte))
}

/// Whether the byte is a letter of ASCII, a digit or `_`.
fn is_label_letter(byte: u8) -> bool
    ensures { result ≡ is_label_byte byte }
{
    byte.is_ascii_alphanumeric() || byte == b'_'
}
