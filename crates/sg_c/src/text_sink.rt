ghost use Rattle.std.specs.Prelude.{◌≡◌, ◌≢◌, ◌↔◌, [], ◌<◌, ◌≤◌, Some, length, IfOk};
ghost use Rattle.std.specs.Io.{WritesAtMost};
ghost use Rattle.std.specs.Io.KnownBytes.{WriteAppends};
ghost use Rattle.sg_io.specs.Count.{CountsErrors};
ghost use Rattle.triplet_text.specs.declared.text.TheConstants.{TEXT_ROOM};

use sg_io::{Sink, SinkStop};
use std::marker::Model;
use triplet_text::Text;

/// A text in place, which takes no memory. Once `TEXT_ROOM` bytes are held, it takes no more.
#[derive(Drop)]
pub struct TextSink {
    text: Text,
    refused: u64,
}

impl Model for TextSink {
    ghost use Rattle.std.specs.Prelude.{◌≡◌, ◌<◌, length};
    ghost use Rattle.triplet_text.specs.declared.text.TheConstants.{TEXT_ROOM};
    ghost use Rattle.sg_c.specs.Texts.{TakenText};

    ghost Value = { TakenText };

    ghost view = { λ s. record { held = s.text; refused = s.refused } };

    ghost invariant = { λ s. length s.text < TEXT_ROOM → s.refused ≡ 0 };
}

impl TextSink {
    /// A sink that holds nothing yet.
    pub fn new() -> TextSink
        ensures { result ≡ record { held = []; refused = 0 } }
    {
        TextSink {
            text: Text::new(),
            refused: 0,
        }
    }

    /// The bytes that it took.
    pub fn held(&self) -> &[u8]
        ensures text { result.now ≡ self.now.held }
        ensures room { length self.now.held ≤ TEXT_ROOM }
        ensures whole { length self.now.held < TEXT_ROOM → self.now.refused ≡ 0 }
    {
        self.text.bytes()
    }
}

impl Sink for TextSink {
    ghost seen = { record { held = λ s. Some s.held; faults = λ _. 0; wants = λ s. s.refused } };

    fn write(&mut self, piece: &[u8]) -> Result<usize, SinkStop>
        ensures bound { WritesAtMost result piece.now }
        ensures bytes { WriteAppends (Some self.old.held) (Some self.new.held) result piece.now }
        ensures none { IfOk result (λ count. (count ≡ 0) ↔ (piece.now ≡ [])) }
        ensures never_fails { result ≢ Err SinkStop.Failed }
        ensures wants_later { self.old.refused ≤ self.new.refused }
        ensures wants { CountsErrors self.old.refused self.new.refused result }
    {
        if piece.is_empty() {
            return Ok(0);
        }
        let count = piece.len().min(self.text.room());
        if count == 0 {
            self.refused = self.refused.saturating_add(1);
            return Err(SinkStop::NoMemory);
        }
        self.text.push(&piece[..count]);
        Ok(count)
    }
}
