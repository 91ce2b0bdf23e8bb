// The kinds of tokens that are not read out of a table; the others have their numbers there. A kind stays a number, since it is the word of
// a record that C reads, and a sign's code holds it beside the sign's length.

pub const IDENT: u32 = 45;

pub const NUM: u32 = 46;

pub const BYTE_LIT: u32 = 47;

pub const STRING: u32 = 48;

pub const IMPLIES: u32 = 67;

pub const L_PAREN: u32 = 78;

pub const R_PAREN: u32 = 79;

pub const INDENT: u32 = 90;

pub const DEDENT: u32 = 91;

pub const NEWLINE: u32 = 92;
