//! The words of the program.

ghost use Rattle.std.specs.Prelude.{◌≡◌, None, Some, codes, if◌then◌else◌, option_map, slice_get, IfSome};
ghost use Rattle.std.specs.Option.{option_copied};
ghost use Rattle.std.specs.Str.{bytes_eq};
ghost use Rattle.pg_replay.specs.Words.{order_of, told_order, recorded_under, file_of};
ghost use Rattle.relation_words.specs.Commands.{pid_of};
ghost use Rattle.relation_words.specs.Keys.{key_of};

use pg_messages::PgStr;
use relation_words::{KeyBytes, read_key, read_pid};

/// What words order.
#[derive(Drop)]
pub(crate) enum Order {
    /// Record a session under this pid and key.
    Record(i32, KeyBytes),
    /// Verify a recording.
    Verify,
}

/// What the words order: `record FILE PID KEY` or `verify FILE`. PID is 1 to 2147483647, KEY an even
/// number of hexadecimal digits of either case, 8 to 512 of them. None for any other words.
pub(crate) fn read_order(words: &[PgStr]) -> Option<Order>
    ensures { option_map told_order result ≡ order_of words.now }
{
    match words {
        [command, _] => read_verify(command.as_str()),
        [command, _, pid, key] => read_record(command.as_str(), pid.as_str(), key.as_str()),
        _ => None,
    }
}

/// FILE, the second of words that are an order. None for any other words.
pub fn file_word<'w>(words: &'w [PgStr]) -> Option<&'w str>
    ensures { option_copied result ≡ file_of words.now }
{
    match read_order(words) {
        Some(_) => Some(words.get(1)?.as_str()),
        None => None,
    }
}

/// What a lone command orders.
fn read_verify(command: &str) -> Option<Order>
    ensures { option_map told_order result
        ≡ (if bytes_eq command.now (codes "verify") then Some (told_order Order.Verify) else None) }
{
    if command == "verify" {
        Some(Order::Verify)
    } else {
        None
    }
}

/// What a command with a pid and a key orders.
fn read_record(command: &str, pid: &str, key: &str) -> Option<Order>
    ensures { option_map told_order result ≡ (if bytes_eq command.now (codes "record")
        then recorded_under (pid_of pid.now) (key_of key.now) else None) }
{
    if command != "record" {
        return None;
    }
    let pid = read_pid(pid)?;
    let key = read_key(key)?;
    Some(Order::Record(pid, key))
}
