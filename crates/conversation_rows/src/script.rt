//! What a row tells of a conversation, in its order.

use crate::message::Frames;
use pg_messages::{KeyError, SecretKey};
use pg_session::DeskCall;
use row_files::{Fault, hex_words};
use std::alloc::Global;

/// A step of a conversation.
#[derive(Clone, Copy)]
pub enum Step {
    /// The client sends this many bytes.
    Client(usize),
    /// The server answers this many bytes.
    Reply(usize),
    /// The registry is asked.
    Ask,
    /// Another call of the registry is made.
    Call,
}

/// A conversation.
#[derive(Drop)]
pub struct Script<'t> {
    /// The client's bytes.
    pub client: Frames<'t>,
    /// The bytes of the replies.
    pub replies: Frames<'t>,
    /// The registry's calls.
    pub calls: Vec<DeskCall>,
    /// All three, in their order.
    pub steps: Vec<Step>,
    fault: Option<Fault<'t>>,
}

/// The conversation that the lines tell.
pub fn script_of<'t>(alloc: Global, lines: &[&'t str]) -> Script<'t> {
    let mut script = Script {
        client: Frames::new(alloc),
        replies: Frames::new(alloc),
        calls: Vec::new(alloc),
        steps: Vec::new(alloc),
        fault: None,
    };
    for line in lines {
        script.push_line(alloc, line);
    }
    script
}

impl<'t> Script<'t> {
    /// The fault of a line that isn't understood, or that memory ran out, if one of these came.
    pub fn fault(&self) -> Option<Fault<'t>> {
        self.fault.or(self.client.fault()).or(self.replies.fault())
    }

    /// Appends what a line tells.
    fn push_line(&mut self, alloc: Global, line: &'t str) {
        match told_apart(line) {
            ("client", message) => {
                let len = put_messages(&mut self.client, message);
                self.push_step(Step::Client(len));
            }
            ("reply", message) => {
                let len = put_messages(&mut self.replies, message);
                self.push_step(Step::Reply(len));
            }
            ("call", words) => self.push_call(call_of(alloc, words), step_of(words)),
            _ => {}
        }
    }

    fn push_step(&mut self, step: Step) {
        if self.steps.push(step).is_err() {
            self.fault = Some(Fault::NoMemory);
        }
    }

    /// Appends a call of the registry.
    fn push_call(&mut self, call: Result<DeskCall, Fault<'t>>, step: Step) {
        match call {
            Ok(call) => {
                if self.calls.push(call).is_err() {
                    self.fault = Some(Fault::NoMemory);
                }
                self.push_step(step);
            }
            Err(fault) => self.fault = Some(fault),
        }
    }
}

/// The step of the registry call of these words.
fn step_of(words: &str) -> Step {
    if words.starts_with("ask") {
        Step::Ask
    } else {
        Step::Call
    }
}

/// The first word, and those behind it.
fn told_apart(line: &str) -> (&str, &str) {
    let (word, rest) = line.split_once(" ").unwrap_or((line, ""));
    (word, rest.trim())
}

/// Appends a message as often as the number before it says, and answers how many bytes it appended.
fn put_messages<'t>(frames: &mut Frames<'t>, message: &'t str) -> usize {
    let before = frames.len();
    let (first, rest) = message.split_once(" ").unwrap_or((message, ""));
    match first.parse::<u32>() {
        Err(_) => frames.put_message(message),
        Ok(times) => {
            for _ in 0..times {
                frames.put_message(rest);
            }
        }
    }
    frames.len().saturating_sub(before)
}

/// The registry call of these words: `start`; `ask` and its answer; `narrow`; or `cancel`, its
/// answer, the pid and the key.
fn call_of<'t>(alloc: Global, words: &'t str) -> Result<DeskCall, Fault<'t>> {
    match words {
        "start" => Ok(DeskCall::Start),
        "ask yes" => Ok(DeskCall::Ask(true)),
        "ask no" => Ok(DeskCall::Ask(false)),
        "narrow" => Ok(DeskCall::Narrow),
        _ => match words.strip_prefix("cancel yes ") {
            Some(named) => cancel_of(alloc, named, true),
            None => cancel_of(alloc, words.strip_prefix("cancel no ").unwrap_or(""), false),
        },
    }
}

/// The cancel of a pid in decimal and a key.
fn cancel_of<'t>(alloc: Global, named: &'t str, answer: bool) -> Result<DeskCall, Fault<'t>> {
    let (number, digits) = named.split_once(" ").unwrap_or((named, ""));
    let Ok(pid) = number.parse::<i32>() else {
        return Err(Fault::Line(named));
    };
    Ok(DeskCall::Cancel(pid, key_of(alloc, digits)?, answer))
}

/// The key of these bytes in hexadecimal.
pub fn key_of<'t>(alloc: Global, words: &'t str) -> Result<SecretKey, Fault<'t>> {
    let bytes = hex_words(alloc, words)?;
    match SecretKey::try_new(alloc, bytes.as_slice()) {
        Ok(key) => Ok(key),
        Err(KeyError::BadLength(_)) => Err(Fault::Line(words)),
        Err(KeyError::NoMemory) => Err(Fault::NoMemory),
    }
}
