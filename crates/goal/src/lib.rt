// What a question asks about: the searches that it needs, what a leak aims at, and the pen before its first row.
#![tactic(auto)]

pub mod about;
pub mod aim;
