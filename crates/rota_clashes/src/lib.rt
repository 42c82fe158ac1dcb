//! Clashes of two rotas: the pairs of shifts that share a moment.
#![tactic(auto)]

mod pairs;
mod shifts;

pub use pairs::clashes;
