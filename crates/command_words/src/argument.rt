//! The arguments of the commands.
ghost use Rattle.std.specs.Prelude.{◌≡◌};
ghost use Rattle.command_words.specs.Arguments.{kind_of, name_of};

/// What a word of a command is for.
#[derive(Clone, Copy)]
pub enum Argument {
    Design,
    Die,
    Netlist,
    Scan,
    Patterns,
    Neighbours,
    Channels,
    Seed,
    Blocks,
    Port,
    Workers,
    Sessions,
    Store,
}

/// What a word must be, beside plain.
#[derive(Clone, Copy)]
pub enum Kind {
    /// Nothing more: the name of a file or of a store.
    Plain,
    Tag,
    /// A number word of a number within these bounds.
    Number { least: u32, most: u32 },
}

impl Argument {
    /// The argument's name.
    pub fn name(self) -> &'static str
        ensures { result.now ≡ name_of self }
    {
        match self {
            Argument::Design => "design",
            Argument::Die => "die",
            Argument::Netlist => "netlist",
            Argument::Scan => "scan",
            Argument::Patterns => "patterns",
            Argument::Neighbours => "neighbours",
            Argument::Channels => "channels",
            Argument::Seed => "seed",
            Argument::Blocks => "blocks",
            Argument::Port => "port",
            Argument::Workers => "workers",
            Argument::Sessions => "sessions",
            Argument::Store => "store",
        }
    }

    /// What its word must be.
    pub fn kind(self) -> Kind
        ensures { result ≡ kind_of self }
    {
        match self {
            Argument::Design | Argument::Die => Kind::Tag,
            Argument::Netlist
            | Argument::Scan
            | Argument::Patterns
            | Argument::Neighbours
            | Argument::Channels
            | Argument::Store => Kind::Plain,
            Argument::Seed => Kind::Number {
                least: 0,
                most: 4_294_967_295,
            },
            Argument::Blocks => Kind::Number {
                least: 1,
                most: 200,
            },
            Argument::Port => Kind::Number {
                least: 1,
                most: 65_535,
            },
            Argument::Workers => Kind::Number { least: 1, most: 64 },
            Argument::Sessions => Kind::Number {
                least: 1,
                most: 1_000_000,
            },
        }
    }
}
