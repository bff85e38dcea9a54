//! The sections of a bundle, and why a bundle wasn't read.
ghost use Rattle.std.specs.Prelude.{◌≡◌};
ghost use Rattle.diagnosis.specs.declared.section.BundleFault.TheVariants.{NoMemory};

use text_parts::TextFault;
use thiserror::Error;

/// Where the fault of a text stands.
#[derive(Clone, Copy, Debug, PartialEq, Eq)]
pub enum Section {
    /// The bundle itself: its lines that begin with `%`.
    Bundle,
    /// The netlist, of which lines count from its own first.
    Netlist,
    /// The scan text.
    Scan,
    /// The patterns.
    Patterns,
    /// The neighbour list, of which records count.
    Neighbours,
    /// A fail log.
    Log,
}

/// One of the four texts of a design.
#[derive(Clone, Copy, PartialEq, Eq)]
pub enum DesignText {
    Netlist,
    Scan,
    Patterns,
    Neighbours,
}

/// Why a bundle wasn't read: the first of its sections that breaks a rule with its first fault, or want of memory.
#[derive(Debug, Drop, Error)]
pub enum BundleFault {
    #[error("a section breaks a rule")]
    Text { section: Section, fault: TextFault },
    #[error("memory ran out")]
    NoMemory,
}

impl From<scan_model::NoMemory> for BundleFault {
    ghost from_gives = { λ _ e. e ≡ NoMemory };

    fn from(_: scan_model::NoMemory) -> Self {
        BundleFault::NoMemory
    }
}
