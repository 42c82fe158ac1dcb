//! The schedule as what a program serves: each client that comes is given handlers of its own, over the
//! one schedule.
#![tactic(auto)]

mod service;

pub use service::ScheduleClients;
