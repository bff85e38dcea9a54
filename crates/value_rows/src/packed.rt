//! A three-valued row: 0, 1 or X in each of 512 lanes.
ghost use Rattle.std.specs.Prelude.{◌≡◌, ℕ, ◌<◌, ◌&&◌, true, false, not, if◌then◌else◌};
ghost use Rattle.scan_model.specs.Values.{is_zero, is_one, is_unknown, are_opposite};
ghost use Rattle.scan_model.specs.Values as values;
ghost use Rattle.bit_rows.specs.Lanes.{lane};
ghost use Rattle.value_rows.specs.Planes.{held, value_known, value_of_bits};

use bit_rows::Row;
use scan_model::Tri;
use std::marker::Model;

/// A value of each of 512 lanes. Contracts see the lanes that are 1 and those that are 0.
#[derive(Clone, Copy)]
pub struct Packed {
    ones: Row,
    zeros: Row,
}

impl Model for Packed {
    ghost use Rattle.value_rows.specs.Planes.{Planes, planes, AreApart};

    ghost Value = { Planes };

    ghost view = { λ p. planes p.ones p.zeros };

    ghost inverse = { λ v. record { ones = v.ones; zeros = v.zeros } };

    ghost invariant = { λ p. AreApart p.ones p.zeros };
}

impl Packed {
    /// The values that two rows stand for.
    pub fn of_rows(ones: Row, zeros: Row) -> Packed
        requires { (j : ℕ) → j < 512 → (lane ones j && lane zeros j) ≡ false }
        ensures { (j : ℕ) → j < 512 → held result j ≡ value_of_bits (lane ones j) (lane zeros j) }
    {
        Packed { ones, zeros }
    }

    /// The values that are known in some lanes: 1 in those of `ones`, 0 in the others. All other lanes are X.
    pub fn of_known(known: Row, ones: Row) -> Packed
        ensures { (j : ℕ) → j < 512 → held result j ≡ value_known (lane known j) (lane ones j) }
    {
        Packed {
            ones: known.and(ones),
            zeros: known.and(ones.not()),
        }
    }

    /// One value in all lanes.
    pub fn all(value: Tri) -> Packed
        ensures { (j : ℕ) → j < 512 → held result j ≡ value }
    {
        match value {
            Tri::Zero => Packed {
                ones: Row::none(),
                zeros: Row::all(),
            },
            Tri::One => Packed {
                ones: Row::all(),
                zeros: Row::none(),
            },
            Tri::Unknown => Packed {
                ones: Row::none(),
                zeros: Row::none(),
            },
        }
    }

    /// The lanes that are 1.
    pub fn ones(self) -> Row
        ensures { (j : ℕ) → j < 512 → lane result j ≡ is_one (held self j) }
    {
        self.ones
    }

    /// The lanes that are 0.
    pub fn zeros(self) -> Row
        ensures { (j : ℕ) → j < 512 → lane result j ≡ is_zero (held self j) }
    {
        self.zeros
    }

    /// The lanes that are 0 or 1, and not X.
    pub fn known(self) -> Row
        ensures { (j : ℕ) → j < 512 → lane result j ≡ not (is_unknown (held self j)) }
    {
        self.ones().or(self.zeros())
    }

    /// The value of one lane.
    pub fn value(self, at: usize) -> Tri
        requires { at < 512 }
        ensures { result ≡ held self at }
    {
        if self.ones().has(at) {
            Tri::One
        } else if self.zeros().has(at) {
            Tri::Zero
        } else {
            Tri::Unknown
        }
    }

    pub fn not(self) -> Packed
        ensures { (j : ℕ) → j < 512 → held result j ≡ values.tri_not (held self j) }
    {
        Packed {
            ones: self.zeros(),
            zeros: self.ones(),
        }
    }

    pub fn and(self, other: Packed) -> Packed
        ensures { (j : ℕ) → j < 512 → held result j ≡ values.tri_and (held self j) (held other j) }
    {
        Packed {
            ones: self.ones().and(other.ones()),
            zeros: self.zeros().or(other.zeros()),
        }
    }

    pub fn or(self, other: Packed) -> Packed
        ensures { (j : ℕ) → j < 512 → held result j ≡ values.tri_or (held self j) (held other j) }
    {
        Packed {
            ones: self.ones().or(other.ones()),
            zeros: self.zeros().and(other.zeros()),
        }
    }

    pub fn xor(self, other: Packed) -> Packed
        ensures { (j : ℕ) → j < 512 → held result j ≡ values.tri_xor (held self j) (held other j) }
    {
        Packed {
            ones: self.opposite(other),
            zeros: self.equal(other),
        }
    }

    /// The lanes in which one is 0 and the other 1.
    pub fn opposite(self, other: Packed) -> Row
        ensures { (j : ℕ) → j < 512 → lane result j ≡ are_opposite (held self j) (held other j) }
    {
        let rising = self.zeros().and(other.ones());
        let falling = self.ones().and(other.zeros());
        rising.or(falling)
    }

    /// The lanes in which both are 0 or both 1.
    pub fn equal(self, other: Packed) -> Row
        ensures { (j : ℕ) → j < 512 → lane result j ≡ is_zero (values.tri_xor (held self j) (held other j)) }
    {
        let high = self.ones().and(other.ones());
        let low = self.zeros().and(other.zeros());
        high.or(low)
    }

    /// One value in some lanes, another in the rest.
    pub fn pick(lanes: Row, inside: Packed, outside: Packed) -> Packed
        ensures { (j : ℕ) → j < 512 → held result j ≡ (if lane lanes j then held inside j else held outside j) }
    {
        Packed {
            ones: Row::pick(lanes, inside.ones(), outside.ones()),
            zeros: Row::pick(lanes, inside.zeros(), outside.zeros()),
        }
    }

    /// Whether both have equal values in each lane, X too.
    pub fn is_same(self, other: Packed) -> bool
        ensures same { result ≡ true → (j : ℕ) → j < 512 → held self j ≡ held other j }
        ensures differ { ((j : ℕ) → j < 512 → held self j ≡ held other j) → result ≡ true }
    {
        let ones = self.ones().xor(other.ones());
        let zeros = self.zeros().xor(other.zeros());
        ones.or(zeros).is_empty()
    }
}
