//! Lines that go to a sink through a buffer.

ghost use Rattle.std.specs.Prelude.{◌≡◌, ◌≤◌, ◌<◌, ◌+◌, ◌^◌, ◌++◌, [], ℕ, List, Option, All, OnOk, IfOk, codes, decimal, length, string_bytes};
ghost use Rattle.pg_text.specs.Words.{printed_style};
ghost use Rattle.rota_moments.specs.Moments.{IsMoment};
ghost use Rattle.rota_lines.specs.Lines.{line, clash_line, rota_text, clash_text, Stands};
ghost use Rattle.rota_lines.specs.Writing.{IsOnItsWay, HasWritten, GoesOn};

use crate::lines::{Told, put_clash, put_end, put_step};
use conversation_runs::{Sink, SinkError};
use pg_interval::Interval;
use pg_text::IntervalStyle;
use rota_moments::Moment;
use std::alloc::{AllocError, Global};

/// A text that has this many bytes or more is sent.
const FULL: usize = 65_536;

/// Writes the text of a rota of these steps, moments and total.
pub(crate) fn write_rota<K: Sink>(
    alloc: Global,
    steps: &[Interval],
    moments: &[Moment],
    total: &Interval,
    style: IntervalStyle,
    sink: &mut K,
) -> Result<(), SinkError>
    requires valid { All IsMoment moments.now }
    requires one_more { length moments.now ≡ length steps.now + 1 }
    ensures written { HasWritten result
        (rota_text (printed_style style) steps.now moments.now total.now)
        (K.written sink.old) (K.written sink.new) (K.faults sink.old) (K.faults sink.new) }
    ensures stand { OnOk result (All (Stands (printed_style style)) steps.now) }
    ensures total_stands { OnOk result (Stands (printed_style style) total.now) }
{
    let mut text = String::new(alloc);
    for (place, step) in steps.iter().enumerate() {
        let told = Told {
            moment: moments[place],
            interval: *step,
            style,
        };
        match write_step(&mut text, place as u64, told, sink) {
            Ok(()) => {}
            Err(error) => return Err(error),
        }
    }
    let told = Told {
        moment: moments[steps.len()],
        interval: *total,
        style,
    };
    write_end(&mut text, told, sink)
}

/// Writes the lines of clashes, by pieces of some 64 KiB. Failed comes only where the sink's count
/// of faults rose, and NoMemory where memory ran out; then a front of the text may stand written.
pub fn write_clashes<K: Sink>(
    alloc: Global,
    pairs: &[(u32, u32)],
    sink: &mut K,
) -> Result<(), SinkError>
    ensures written { HasWritten result (clash_text pairs.now)
        (K.written sink.old) (K.written sink.new) (K.faults sink.old) (K.faults sink.new) }
{
    let mut text = String::new(alloc);
    for pair in pairs {
        match write_clash(&mut text, pair.0, pair.1, sink) {
            Ok(()) => {}
            Err(error) => return Err(error),
        }
    }
    write_rest(&text, sink)
}

/// Puts the line of a step behind the text, and sends that where it is full.
fn write_step<K: Sink>(
    text: &mut String,
    number: u64,
    told: Told,
    sink: &mut K,
) -> Result<(), SinkError>
    ensures on { GoesOn result (line (printed_style told.style) (decimal number) told.moment
        told.interval)
        (string_bytes text.old) (string_bytes text.new)
        (K.written sink.old) (K.written sink.new) (K.faults sink.old) (K.faults sink.new) }
    ensures stands { OnOk result (Stands (printed_style told.style) told.interval) }
{
    match put_step(text, number, &told.moment, &told.interval, told.style) {
        Ok(()) => send_full(text, sink),
        Err(AllocError) => Err(SinkError::NoMemory),
    }
}

/// Puts the last line of a rota behind the text, and sends that.
fn write_end<K: Sink>(text: &mut String, told: Told, sink: &mut K) -> Result<(), SinkError>
    ensures written { (first : Option (List ℕ)) (whole : List ℕ)
        → IsOnItsWay first (K.written sink.old) whole (string_bytes text.old)
        → HasWritten result (whole ++ line (printed_style told.style) (codes "end") told.moment
        told.interval)
        first (K.written sink.new) (K.faults sink.old) (K.faults sink.new) }
    ensures stands { OnOk result (Stands (printed_style told.style) told.interval) }
    ensures never_falls { K.faults sink.old ≤ K.faults sink.new }
{
    match put_end(text, &told.moment, &told.interval, told.style) {
        Ok(()) => write_rest(text, sink),
        Err(AllocError) => Err(SinkError::NoMemory),
    }
}

/// Puts the line of a clash behind the text, and sends that where it is full.
fn write_clash<K: Sink>(
    text: &mut String,
    first: u32,
    second: u32,
    sink: &mut K,
) -> Result<(), SinkError>
    ensures on { GoesOn result (clash_line (first, second))
        (string_bytes text.old) (string_bytes text.new)
        (K.written sink.old) (K.written sink.new) (K.faults sink.old) (K.faults sink.new) }
{
    match put_clash(text, first, second) {
        Ok(()) => send_full(text, sink),
        Err(AllocError) => Err(SinkError::NoMemory),
    }
}

/// Sends a text where it is full, and empties it.
fn send_full<K: Sink>(text: &mut String, sink: &mut K) -> Result<(), SinkError>
    ensures on { GoesOn result []
        (string_bytes text.old) (string_bytes text.new)
        (K.written sink.old) (K.written sink.new) (K.faults sink.old) (K.faults sink.new) }
{
    if text.len() < FULL {
        return Ok(());
    }
    match sink.send(text.as_bytes()) {
        Ok(()) => {
            text.clear();
            Ok(())
        }
        Err(error) => Err(error),
    }
}

/// Sends what waits.
fn write_rest<K: Sink>(text: &String, sink: &mut K) -> Result<(), SinkError>
    ensures written { (first : Option (List ℕ)) (whole : List ℕ)
        → IsOnItsWay first (K.written sink.old) whole (string_bytes text.now)
        → HasWritten result whole first
        (K.written sink.new) (K.faults sink.old) (K.faults sink.new) }
    ensures never_falls { K.faults sink.old ≤ K.faults sink.new }
{
    sink.send(text.as_bytes())
}
