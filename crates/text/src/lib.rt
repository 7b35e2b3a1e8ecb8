// The text layer: UTF-8 by RFC 3629, classes of ASCII characters, white space, control characters and noncharacters by Unicode, places,
// and parts of byte slices.
#![tactic(auto)]

pub mod ascii;
pub mod block;
pub mod category;
pub mod find;
pub mod part;
pub mod place;
pub mod utf8;
pub mod white;
