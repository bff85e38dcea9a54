//! SHA-256 digests.

use std::marker::Model;

/// A SHA-256 digest (FIPS 180-4): contracts see its 32 bytes as a list.
#[derive(Clone, Copy, Debug)]
pub struct Digest {
    bytes: [u8; 32],
}

impl Model for Digest {
    ghost use Rattle.std.specs.Prelude.{List, ℕ};

    ghost Value = { List ℕ };

    ghost view = { λ digest. digest.bytes };

    ghost inverse = { λ bytes. record { bytes = bytes } };
}

impl Digest {
    ghost use Rattle.std.specs.Prelude.{◌≡◌};

    pub fn from_bytes(bytes: [u8; 32]) -> Self
        ensures { result ≡ bytes }
    {
        Digest { bytes }
    }

    pub fn as_bytes(&self) -> &[u8; 32]
        ensures { result.now ≡ self.now }
    {
        &self.bytes
    }
}
