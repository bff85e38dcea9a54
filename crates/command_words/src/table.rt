//! The table of the commands.
use crate::argument::Argument;
use scan_model::Profile;

/// What is made of the files of a design.
#[derive(Clone, Copy)]
pub enum Product {
    /// The summary of the design.
    Summary,
    /// Its bundle.
    Bundle,
    /// The report of a die.
    Report,
    /// The report of a die on transition faults, over two-frame patterns.
    TransitionReport,
    /// The report of a die that was seen through a compactor.
    CompactReport,
}

/// What a command does.
#[derive(Clone, Copy)]
pub enum Task {
    /// Makes this of files, with the design in this profile.
    Make(Product, Profile),
    /// Makes a design, puts a fault into it and finds it.
    Demo,
    /// Serves the connections of a port over a store.
    Serve,
}

/// A row of the table.
#[derive(Clone, Copy)]
pub struct Form {
    /// The command's own word, the first.
    pub word: &'static str,
    pub task: Task,
    /// What each of the next words is for.
    pub arguments: &'static [Argument],
    /// Whether one word or more are left after them, the names of logs.
    pub has_logs: bool,
}

// The files of a design.
const DESIGN: &[Argument] = &[
    Argument::Netlist,
    Argument::Scan,
    Argument::Patterns,
    Argument::Neighbours,
];

// The tags of a design and a die, and the files of the design.
const DIE: &[Argument] = &[
    Argument::Design,
    Argument::Die,
    Argument::Netlist,
    Argument::Scan,
    Argument::Patterns,
    Argument::Neighbours,
];

// The tags, and the files of a design that is tested with two-frame patterns.
const LAUNCHED: &[Argument] = &[
    Argument::Design,
    Argument::Die,
    Argument::Netlist,
    Argument::Scan,
    Argument::Patterns,
];

// The tags, the files of the design, and the channels of a compactor.
const COMPACTED: &[Argument] = &[
    Argument::Design,
    Argument::Die,
    Argument::Netlist,
    Argument::Scan,
    Argument::Patterns,
    Argument::Neighbours,
    Argument::Channels,
];

const MADE: &[Argument] = &[Argument::Seed, Argument::Blocks];

const SERVED: &[Argument] = &[
    Argument::Port,
    Argument::Workers,
    Argument::Sessions,
    Argument::Store,
];

/// The commands.
pub const COMMANDS: [Form; 10] = [
    Form {
        word: "check",
        task: Task::Make(Product::Summary, Profile::One),
        arguments: DESIGN,
        has_logs: false,
    },
    Form {
        word: "check2",
        task: Task::Make(Product::Summary, Profile::Two),
        arguments: DESIGN,
        has_logs: false,
    },
    Form {
        word: "pack",
        task: Task::Make(Product::Bundle, Profile::One),
        arguments: DESIGN,
        has_logs: false,
    },
    Form {
        word: "pack2",
        task: Task::Make(Product::Bundle, Profile::Two),
        arguments: DESIGN,
        has_logs: false,
    },
    Form {
        word: "diagnose",
        task: Task::Make(Product::Report, Profile::One),
        arguments: DIE,
        has_logs: true,
    },
    Form {
        word: "diagnose2",
        task: Task::Make(Product::Report, Profile::Two),
        arguments: DIE,
        has_logs: true,
    },
    Form {
        word: "loc",
        task: Task::Make(Product::TransitionReport, Profile::One),
        arguments: LAUNCHED,
        has_logs: true,
    },
    Form {
        word: "compact",
        task: Task::Make(Product::CompactReport, Profile::One),
        arguments: COMPACTED,
        has_logs: true,
    },
    Form {
        word: "demo",
        task: Task::Demo,
        arguments: MADE,
        has_logs: false,
    },
    Form {
        word: "serve",
        task: Task::Serve,
        arguments: SERVED,
        has_logs: false,
    },
];
