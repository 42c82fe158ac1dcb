//! Tests of messages, keys and the outbox: that each call which takes memory succeeds where there is
//! enough, with replies that reach over the ends of chunks, and worked values for what no clause
//! says.
#![tactic(auto)]

#[cfg(test)]
mod key_tests;
#[cfg(test)]
mod message_tests;
#[cfg(test)]
mod outbox_tests;
