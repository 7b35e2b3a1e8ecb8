// The token layer: the lexer, the token records in the lent words, and the cursor over them.
#![tactic(auto)]

pub mod cursor;
pub mod duration;
pub mod kind;
pub mod lexer;
pub mod phrase;
pub mod record;
pub mod scan;
