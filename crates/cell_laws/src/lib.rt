//! Laws of the cells that the server of relations shows.
#![tactic(auto)]

mod laws;

pub use laws::shown_cells_stand;
