//! Bytes as the key of a hash map.

ghost use Rattle.std.specs.Prelude.{[], ◌∷◌};
ghost use Rattle.std.specs.Str.{bytes_eq};
ghost use Rattle.std.proofs.Common.{rules};
ghost use Rattle.std.specs.Cmp.Rules.{comparing, hashing};

use std::hash::{Hash, Hasher};

/// Bytes that a hasher is given in one write, where a slice gives each by itself.
#[derive(Clone, Copy)]
pub struct Key<'a> {
    pub bytes: &'a [u8],
}

impl<'a> PartialEq for Key<'a> {
    ghost eq = { λ x y. bytes_eq x.bytes.now y.bytes.now };

    ghost laws = { Prim.search (comparing, rules) };

    fn eq(&self, other: &Self) -> bool {
        self.bytes == other.bytes
    }
}

impl<'a> Eq for Key<'a> {
    ghost laws = { Prim.search (comparing, rules) };
}

impl<'a> Hash for Key<'a> {
    ghost hash_input = { λ key. key.bytes.now ∷ [] };

    ghost respects_eq = { Prim.search (hashing, rules) };

    fn hash<H: Hasher>(&self, state: &mut H) {
        state.write(self.bytes);
    }
}
