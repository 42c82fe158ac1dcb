//! The generated load of a server of relations: relations that are drawn from a seed, a client that
//! asks for each, and the count of the rows among the replies.
#![tactic(auto)]

mod client;
mod counting;
mod draws;
mod relations;

pub use client::demo_client;
pub use counting::count_rows;
pub use relations::demo_table;
