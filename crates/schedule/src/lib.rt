//! A schedule of shifts that clients share: a service whose handlers change.
#![tactic(auto)]

mod laws;
mod schedule;

pub use laws::{
    bookings_are_told_in_order, no_two_shifts_clash, outcomes_are_replied,
    transactions_are_told_in_order, transactions_see_their_own,
};
pub use schedule::Schedule;
