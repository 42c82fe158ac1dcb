//! Handlers of one's own, as an example: a query is the text of an interval, and it is answered by
//! that interval in each of PostgreSQL's four styles.
#![tactic(auto)]

mod answers;
mod laws;
mod reading;
mod rows;

pub use answers::{Styles, StylesStatement};
pub use laws::each_cell_stands_for_its_query;
