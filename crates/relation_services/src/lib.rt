//! Relations as what clients are served.
#![tactic(auto)]

mod lent;

pub use lent::LentRelations;
