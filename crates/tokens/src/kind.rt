// The kinds of tokens, in the order of document 01, "Tokens and places"; past the last token the kind is 0. They are
// numbers, since the lent words hold them (include/tergyosul.h).
pub const WORD: u32 = 1;

pub const STRING: u32 = 2;

pub const INTEGER: u32 = 3;

pub const TIME: u32 = 4;

pub const DURATION: u32 = 5;

pub const DECIMAL: u32 = 6;

pub const OPEN: u32 = 7;

pub const CLOSE: u32 = 8;

pub const OPEN_BRACE: u32 = 9;

pub const CLOSE_BRACE: u32 = 10;

pub const COMMA: u32 = 11;

pub const POINT: u32 = 12;

pub const POINTS: u32 = 13;

pub const ASSIGN: u32 = 14;

pub const EQ: u32 = 15;

pub const NE: u32 = 16;

pub const GE: u32 = 17;

pub const LE: u32 = 18;

pub const GT: u32 = 19;

pub const LT: u32 = 20;

pub const PLUS: u32 = 21;

pub const MINUS: u32 = 22;
