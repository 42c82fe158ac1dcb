//! The whole conversation table: how each message is answered in each phase, with any handlers. The
//! crate has no code. Contracts cite its definitions. Proofs of the handlers and of the session use
//! its lemmas. The contract of its one function is a law of the table.
#![tactic(auto)]

mod laws;

pub use laws::whole_table_is_lawful;
