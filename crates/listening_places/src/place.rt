//! Where a program is told to listen.

/// Where to listen.
#[derive(Clone, Copy, Debug, PartialEq, Eq)]
pub enum ListenPlace<'a> {
    /// This port of 127.0.0.1. Port 0 is any that is free.
    Tcp(u16),
    /// The socket of this path, which isn't empty.
    Unix(&'a str),
}
