//! Short texts, made in place with no memory.
ghost use Rattle.std.specs.Prelude.{◌≡◌, ◌+◌, ◌≤◌, [], ◌∷◌, ◌++◌, length, decimal};
ghost use Rattle.hex.specs.Hex.{encode_lower};
ghost use Rattle.scan_model.specs.ReportText.{line};
ghost use Rattle.desk_replies.specs.Bodies.{number_line, digest_line};

use arrayvec::ArrayVec;
use itoa::Buffer;
use scan_model::Digest;
use std::marker::Model;

/// A text of at most 256 bytes: contracts see its bytes as a list.
#[derive(Drop)]
pub struct ShortText {
    bytes: ArrayVec<u8, 256>,
}

impl Model for ShortText {
    ghost use Rattle.std.specs.Prelude.{List, ℕ};

    ghost Value = { List ℕ };

    ghost view = { λ short. short.bytes.items };
}

impl ShortText {
    /// The bytes.
    pub fn as_slice(&self) -> &[u8]
        ensures bytes { result.now ≡ self.now }
        ensures fits { length result.now ≤ 256 }
    {
        self.bytes.as_slice()
    }

    /// No bytes.
    pub fn new() -> ShortText
        ensures { result ≡ [] }
    {
        ShortText {
            bytes: ArrayVec::new(),
        }
    }

    /// Adds bytes, for which there is room.
    pub fn add(&mut self, part: &[u8])
        requires { length self.old + length part.now ≤ 256 }
        ensures { self.new ≡ self.old ++ part.now }
    {
        let Ok(()) = self.bytes.try_extend_from_slice(part) else {
            unreachable!()
        };
    }

    /// Adds the decimal digits of a number, which are 20 at most.
    pub fn add_number(&mut self, number: u64)
        requires { length self.old + 20 ≤ 256 }
        ensures digits { self.new ≡ self.old ++ decimal number }
        ensures grown { length self.new ≤ length self.old + 20 }
    {
        self.add(Buffer::new().format(number).as_bytes());
    }

    // Adds a line of words and a name.
    pub(crate) fn add_name_line(&mut self, words: &[u8], name: &[u8])
        requires { length self.old + length words.now + length name.now + 2 ≤ 256 }
        ensures { self.new ≡ self.old ++ line (words.now ∷ name.now ∷ []) }
    {
        self.add(words);
        self.add(b" ");
        self.add(name);
        self.add(b"\n");
    }

    // Adds a line of words and a number.
    pub(crate) fn add_number_line(&mut self, words: &[u8], number: u64)
        requires { length self.old + length words.now + 22 ≤ 256 }
        ensures line { self.new ≡ self.old ++ number_line words.now number }
        ensures grown { length self.new ≤ length self.old + length words.now + 22 }
    {
        self.add(words);
        self.add(b" ");
        self.add_number(number);
        self.add(b"\n");
    }

    // Adds a line of words and a digest.
    pub(crate) fn add_digest_line(&mut self, words: &[u8], digest: &Digest)
        requires { length self.old + length words.now + 66 ≤ 256 }
        ensures { self.new ≡ self.old ++ digest_line words.now digest.now }
    {
        self.add_name_line(words, &hex_of(digest.as_bytes()));
    }
}

// The hexadecimal digits of the bytes of a digest, in lower case.
fn hex_of(bytes: &[u8; 32]) -> [u8; 64]
    ensures { result ≡ encode_lower bytes.now }
{
    let mut digits = [0; 64];
    let Ok(()) = hex::encode_to_slice(bytes, &mut digits) else {
        unreachable!()
    };
    digits
}
