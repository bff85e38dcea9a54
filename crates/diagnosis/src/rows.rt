//! The fault-free rows of a design: those that it keeps, or rows that were made for one use.
ghost use Rattle.std.specs.Prelude.{◌≡◌};
ghost use Rattle.diagnosis.specs.DesignRows.{rows_in};

use packed_sim::PackedGood;

/// The fault-free rows of a design, with its wiring: those that it keeps, or rows that were made for one use.
#[derive(Drop)]
pub enum DesignRows<'a> {
    Kept(&'a PackedGood),
    Made(PackedGood),
}

impl DesignRows<'_> {
    /// The rows.
    pub fn good(&self) -> &PackedGood
        ensures { result.now ≡ rows_in self.now }
    {
        match self {
            DesignRows::Kept(good) => good,
            DesignRows::Made(good) => good,
        }
    }
}
