//! Threads that share one cancel registry. Each has a connection of its own, and cancels the next
//! one's queries. With the word CALLS, each of eight threads makes CALLS calls, whose answers are
//! checked; then as many calls are made in turn, whose answers and history are checked. The words
//! `0 ENTRIES CALLS` ask for the nanoseconds of a call on 1, 2, 4 and 8 threads after ENTRIES
//! entries.
#![tactic(auto)]

mod crowd;
mod notes;
mod plain;
mod worker;

use crowd::{Told, stressed, timed};
use notes::Counts;
use std::alloc::Global;
use std::fmt::Display;
use std::sync::Wait;
use std::thread::Threads;
use std::time::Clock;
use std::{env, io};

fn main(rt: HostRuntime) -> io::Result<()> {
    let [calls, entries, each] = numbers_of(env::args(&rt)?);
    if calls > 0 {
        match stressed(&rt, rt.alloc(), calls) {
            Some(told) => tell(&rt, calls, told),
            None => println!(rt; "no memory"),
        }
    } else {
        tell_times(&rt, rt.alloc(), entries, each)
    }
}

/// Tells the nanoseconds of a call on 1, 2, 4 and 8 threads after `entries` entries.
fn tell_times<R: Threads + Wait + Clock + Sync + Print>(
    rt: &R,
    alloc: Global,
    entries: u64,
    calls: u64,
) -> io::Result<()> {
    for threads in [1, 2, 4, 8] {
        let told = timed(rt, alloc, threads, entries, calls)?;
        println!(rt; "{threads} threads: {told} ns a call")?;
    }
    Ok(())
}

/// The numbers after the program's name, 0 where there is none.
fn numbers_of(words: env::Args<Global>) -> [u64; 3] {
    let mut numbers = [0, 0, 0];
    for (place, word) in words.enumerate() {
        if place > 0 && place < 4 {
            numbers[place - 1] = word.as_str().parse::<u64>().unwrap_or(0);
        }
    }
    numbers
}

fn tell(rt: &impl Print, calls: u64, told: Told) -> io::Result<()> {
    tell_line(rt, "calls of each thread", calls)?;
    tell_counts(rt, told.heard.counts)?;
    tell_line(rt, "answers in order", told.heard.in_order)?;
    tell_line(rt, "canceled within the cancels", told.heard.within)?;
    tell_line(rt, "entries", told.entries)?;
    tell_line(rt, "legal", told.legal)
}

fn tell_line<T: Display + Copy>(rt: &impl Print, name: &str, value: T) -> io::Result<()> {
    println!(rt; "{name} {value}")
}

fn tell_counts(rt: &impl Print, counts: Counts) -> io::Result<()> {
    println!(rt;
        "cancels by pid and key {}, true {}",
        counts.right, counts.hits
    )?;
    println!(rt;
        "cancels by another key {}, true {}",
        counts.wrong, counts.misses
    )
}
