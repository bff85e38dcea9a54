//! How a run of `serve` ends.
ghost use Rattle.std.specs.Prelude.{◌≡◌};
ghost use Rattle.run_ends.specs.Endings.{status_of};

/// How a run ended.
#[derive(Clone, Copy, PartialEq, Eq)]
pub enum Ending {
    /// All connections were served: so many sessions ended, and the store has so many deeds.
    Done { sessions: u64, deeds: u64 },
    /// The sink failed.
    SinkFault,
    /// The cabinet failed, and no door was asked for.
    StoreFault,
    /// Memory ran out.
    NoMemory,
    /// This row of the store, counted from 0, is spoiled.
    Spoiled { row: u64 },
    /// The street failed, or a door of it.
    StreetFault,
}

impl Ending {
    /// The exit status of the program.
    pub fn status(self) -> u8
        ensures { result ≡ status_of self }
    {
        match self {
            Ending::Done { .. } => 0,
            Ending::SinkFault => 6,
            Ending::StoreFault => 7,
            Ending::NoMemory => 8,
            Ending::Spoiled { .. } => 9,
            Ending::StreetFault => 10,
        }
    }
}
