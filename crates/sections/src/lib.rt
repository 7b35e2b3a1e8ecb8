// The sections of a rule: values, time bounds, triggers and conditions.
#![tactic(auto)]

pub mod condition;
pub mod expr;
pub mod first;
pub mod name;
pub mod timeval;
pub mod trigger;
pub mod words;
