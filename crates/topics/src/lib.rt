// MQTT topics: what one may be, those that are lent, and whether one more is one too many.
#![tactic(auto)]

pub mod limit;
pub mod ranges;
pub mod topic;
