// Values found, each with the way it was found. The searches themselves are crates of their own: session_search and item_search.
#![tactic(auto)]

pub mod queue;
pub mod way;
