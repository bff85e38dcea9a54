//! The numbers of the rules by which texts are refused, each with the rule in words.

// ---- netlists

/// Rule 1: a byte of the line may not stand in a text.
pub const REFUSED_BYTE: u32 = 1;

/// Rule 2: the line holds more than blanks and is of no form.
pub const NO_FORM: u32 = 2;

/// Rule 3: the gate word is unknown.
pub const UNKNOWN_WORD: u32 = 3;

/// Rule 4: the word takes another number of operands.
pub const WRONG_COUNT: u32 = 4;

/// Rule 5: a name is longer than 64 bytes.
pub const LONG_NAME: u32 = 5;

/// Rule 6: the line defines a net that an earlier line defines.
pub const DEFINED_TWICE: u32 = 6;

/// Rule 7: the line has the first use of a net that no line defines.
pub const UNDEFINED_NET: u32 = 7;

/// Rule 8: the backward walk through gates from the line's gate does not end.
pub const WITHOUT_LEVEL: u32 = 8;

/// Rule 9: the line makes a net or a pin past the limit.
pub const TOO_MANY_NETS_OR_PINS: u32 = 9;

// ---- scan texts

/// Rule 11: the line is of another form, has a word that is no name, or a byte that may not stand in a text.
pub const OTHER_CHAIN_FORM: u32 = 11;

/// Rule 12: no net has the cell's name.
pub const UNKNOWN_CELL: u32 = 12;

/// Rule 13: the cell's net is no DFF.
pub const NOT_A_FLOP: u32 = 13;

/// Rule 14: the cell stands in a chain already, or the chain's name is taken.
pub const CHAIN_TAKEN: u32 = 14;

/// Rule 15: the line makes a chain past the limit.
pub const TOO_MANY_CHAINS: u32 = 15;

// ---- pattern texts

/// Rule 21: the first word is no keyword of the text, or a byte may not stand in a text.
pub const OTHER_KEYWORD: u32 = 21;

/// Rule 22: the line has another number of words.
pub const WRONG_WORDS: u32 = 22;

/// Rule 23: a word has another length, or stands for no inputs and isn't `-`.
pub const WRONG_LENGTH: u32 = 23;

/// Rule 24: a character is no value.
pub const OTHER_VALUE: u32 = 24;

/// Rule 25: the line makes a pattern past the limit.
pub const TOO_MANY_PATTERNS: u32 = 25;

/// Rule 26: the text has no pattern.
pub const NO_PATTERN: u32 = 26;

// ---- lists of neighbouring nets

/// Rule 31: the first record isn't the header, or a record hasn't two fields.
pub const OTHER_PAIR_FORM: u32 = 31;

/// Rule 32: no net has the name.
pub const NAMES_NO_NET: u32 = 32;

/// Rule 33: both names are the same net.
pub const NAMES_ONE_NET: u32 = 33;

/// Rule 34: the record makes a different pair past the limit.
pub const TOO_MANY_PAIRS: u32 = 34;

// ---- fail logs, and logs of a compactor

/// Rule 51: a byte of the line may not stand in a text.
pub const REFUSED_LOG_BYTE: u32 = 51;

/// Rule 52: the first line with words is no title, or no line has words.
pub const NO_TITLE: u32 = 52;

/// Rule 53: a later line is of no form.
pub const OTHER_LINE: u32 = 53;

/// Rule 54: a word that stands for a number is none.
pub const NO_NUMBER: u32 = 54;

/// Rule 55: the design has another name.
pub const OTHER_DESIGN: u32 = 55;

/// Rule 56: the die has another name.
pub const OTHER_DIE: u32 = 56;

/// Rule 57: the range ends before it begins, or there is no pattern of its last number.
pub const BAD_RANGE: u32 = 57;

/// Rule 58: no output and no chain has the name, or the chain is shorter.
pub const NOWHERE: u32 = 58;

/// Rule 59: ranges of tested patterns came, and none holds the pattern.
pub const UNTESTED_PATTERN: u32 = 59;

/// Rule 60: an output is named at a SHIFT pattern.
pub const OUT_OF_SHIFT: u32 = 60;

/// Rule 61: the log has no closing line.
pub const NO_CLOSING_LINE: u32 = 61;

/// Rule 62: a line with words comes after the closing line.
pub const AFTER_CLOSING_LINE: u32 = 62;

/// Rule 63: a header line comes again, or a fail, cut or closing line while one is missing.
pub const MISPLACED_LINE: u32 = 63;

/// Rule 64: in version 2 a range of tested patterns comes after a fail or cut line.
pub const LATE_RANGE: u32 = 64;

// ---- bundles

/// Rule 81: a line isn't the marker that is due, or a marker is missing.
pub const WRONG_MARK: u32 = 81;

// ---- sign-offs

/// Rule 91: the body is no sign-off.
pub const NOT_A_SIGN: u32 = 91;

// ---- channels of a compactor

/// Rule 101: the line is of another form, has a word that is no name, or a byte that may not stand in a text.
pub const OTHER_CHANNEL_FORM: u32 = 101;

/// Rule 102: no chain has the name.
pub const UNKNOWN_CHAIN: u32 = 102;

/// Rule 103: the channel's name is taken, or a chain stands twice in the line.
pub const CHANNEL_TAKEN: u32 = 103;

/// Rule 104: the line makes a channel past the limit.
pub const TOO_MANY_CHANNELS: u32 = 104;

/// Rule 105: with the line there are more compact points than may be.
pub const TOO_MANY_POINTS: u32 = 105;
