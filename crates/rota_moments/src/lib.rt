//! Moments of a rota: a day and a time of it, its text, the moment after an interval, and the
//! moments of a list of steps.
#![tactic(auto)]

mod calendar;
mod moment;
mod printing;
mod reading;
mod rotas;

pub use moment::{Moment, RangeError};
pub use reading::MomentError;
pub use rotas::{RotaError, rota, total};
