//! How large a thread's stack is, and what is waited out, with the reason of each.

/// The bytes of a thread's stack. Without a size a thread would reserve what the C library gives,
/// mostly 8 MiB of address space; a service touches five pages.
pub(crate) const STACK: usize = 512 * 1024;

/// How many milliseconds are waited before a thread is tried again. Meanwhile the thread of a job
/// that has ended goes too, and a want of memory may pass.
pub(crate) const PAUSE: u64 = 100;

/// How many tries in turn fail while no job runs, until a job is dropped. So one refused allocation
/// is waited out, and a failure that stays is told.
pub(crate) const TRIES: u64 = 5;

/// How many milliseconds a thread whose job has ended waits for the next one, before it ends. So
/// jobs one after another take the same thread. It is less than the pause, so that such a thread
/// has ended before one that couldn't be made is tried again.
pub(crate) const IDLE: u64 = 50;

/// How many threads wait so at most. So clients that come and go at once, on a machine of some
/// processors, mostly find a thread; and an idle service keeps none for long.
pub(crate) const MOST_IDLE: usize = 8;
