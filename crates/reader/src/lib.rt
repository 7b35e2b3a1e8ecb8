// The reader: the two sections of a rule, and the call that outsiders make.
#![tactic(auto)]

pub mod parts;
pub mod read;
pub mod section;
