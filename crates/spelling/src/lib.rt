// Tokens written into a lent buffer (document 02, §7).
#![tactic(auto)]

pub mod numbers;
pub mod parts;
pub mod put;
pub mod signed;
pub mod week;
