// The details of failures, by their numbers in the document's order. A detail stays a number, since it is a word of the failure's record,
// which C reads, and each crate above hands it on as it is.

pub const UNEXPECTED_CHARACTER: u32 = 1;

pub const EXPECTED_AND: u32 = 2;

pub const UNTERMINATED_STRING: u32 = 3;

pub const BAD_INDENT: u32 = 4;

pub const UNTERMINATED: u32 = 5;

pub const EMPTY: u32 = 6;

pub const ESCAPE_ABOVE: u32 = 7;

pub const EXPECTED_HEX_DIGIT: u32 = 8;

pub const UNKNOWN_ESCAPE: u32 = 9;

pub const CONTROL_CHARACTER: u32 = 10;

pub const NON_ASCII: u32 = 11;

pub const EXPECTED_QUOTE: u32 = 12;
