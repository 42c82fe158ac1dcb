//! What a replay uses: a source over bytes that are lent to it, whose reads never fail, and a sink
//! in memory, whose writes fail only where memory runs out. And which recordings are those of a run.
#![tactic(auto)]

mod sink;
mod source;

pub use sink::BytesSink;
pub use source::BytesSource;
