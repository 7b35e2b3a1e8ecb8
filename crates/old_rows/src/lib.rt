// The previous owners' rows (document 02, §10): rows converted to triggers, and a list of triggers back to rows.
#![tactic(auto)]

pub mod convert;
mod name;
pub mod restore;
pub mod row;
