//! Rotas over the intervals of a relation's column: moments, totals, clashes, their texts, and the
//! program that tells them.
#![tactic(auto)]

mod columns;
mod comparing;
mod failure;
mod listing;
mod reading;
mod running;
mod telling;

pub use rota_clashes::clashes;
pub use rota_lines::{ReportError, report};
pub use rota_moments::{Moment, MomentError, RangeError, RotaError, rota, total};
pub use running::run_rota;
