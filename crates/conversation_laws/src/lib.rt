//! Laws of the whole conversation table, with any handlers; and laws of runs. Over the same bytes,
//! and with answers that agree, there is only one run. Its calls begin with those of its first
//! frames. With any script of answers there is a run.
#![tactic(auto)]

mod laws;
mod runs;

pub use laws::{discards_until_sync, pages_join, sync_is_answered_once};
pub use runs::{calls_go_on, one_run, scripted_run_exists, whole_table_is_steady};
