// A text that grows: the first bytes of an array, so many as were appended.
ghost use Rattle.std.specs.Prelude.{◌≡◌, [], ◌++◌, length};
ghost use Rattle.listing.specs.Texts.{Room};

use std::marker::Model;

// No text is longer: a header of less than 1,000 bytes, and 1,000 lines with 128,000 steps and 23 bytes beside them at most.
const LONGEST: usize = 152000;

#[derive(Drop)]
pub(crate) struct Text {
    bytes: [u8; LONGEST],
    len: usize,
}

impl Model for Text {
    ghost use Rattle.std.specs.Prelude.{ℕ, ◌≤◌, List, take};

    ghost Value = { List ℕ };

    ghost view = { λ t. take t.len t.bytes };

    ghost invariant = { λ t. t.len ≤ 152000 };
}

impl Text {
    pub(crate) fn new() -> Text
        ensures { result ≡ [] }
    {
        Text {
            bytes: [0; LONGEST],
            len: 0,
        }
    }

    pub(crate) fn as_slice(&self) -> &[u8]
        ensures { result.now ≡ self.now }
    {
        &self.bytes[..self.len]
    }

    pub(crate) fn append(&mut self, bytes: &[u8])
        requires { Room self.old (length bytes.now) }
        ensures { self.new ≡ self.old ++ bytes.now }
    {
        let end = self.len + bytes.len();
        self.bytes[self.len..end].copy_from_slice(bytes);
        self.len = end;
    }
}
