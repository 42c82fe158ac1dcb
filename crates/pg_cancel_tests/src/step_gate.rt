//! A gate between two threads.

use std::sync::{Condvar, Mutex, Wait};

/// The step that two threads are at. Each waits for it before it does its own part.
#[derive(Drop)]
pub struct StepGate {
    step: Mutex<u32>,
    moved: Condvar,
}

impl StepGate {
    pub fn new() -> StepGate {
        StepGate {
            step: Mutex::new(0),
            moved: Condvar::new(),
        }
    }

    pub fn wait<R: Wait>(&self, rt: &R, step: u32) {
        let reached = self
            .moved
            .wait_while(rt, self.step.lock(rt), |now| *now != step);
        drop(reached);
    }

    pub fn open<R: Wait>(&self, rt: &R, step: u32) {
        let mut now = self.step.lock(rt);
        *now = step;
        self.moved.notify_all();
    }
}
