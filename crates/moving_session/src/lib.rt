//! A session whose handlers change. They meet each message before it is answered: they do what it
//! asks of their world, and tell its sheet, by which the session answers it.
#![tactic(auto)]

mod behind;
mod front;
mod moving;
mod parts;

pub use front::{MovingConversation, MovingSession};
pub use moving::MovingHandlers;
