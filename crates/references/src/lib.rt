// The reference layer: what refers into the name sheet.

#![tactic(auto)]

pub mod args;
pub mod refs;
