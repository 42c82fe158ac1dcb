//! Sessions, recorded, over relations or by any service: what the source gave, what the sink took,
//! and the registry's calls with their answers. A source, a sink and a desk that are recorded keep
//! what passes: the first bytes, as many as there is room for, the number of all, and the calls.
#![tactic(auto)]

mod desk;
mod error;
mod keeping;
mod recorder;
mod services;
mod sink;
mod source;

pub use desk::RecordingDesk;
pub use error::RecordError;
pub use keeping::FirstBytes;
pub use recorder::record_session;
pub use services::record_service;
pub use sink::RecordingSink;
pub use source::RecordingSource;
