//! What the words of a command line order.

ghost use Rattle.std.specs.Prelude.{◌≡◌, Some, None, option_map};
ghost use Rattle.relation_words.specs.Listening.{told_place, bound_of};
ghost use Rattle.handler_serving.specs.Orders.{told_order, order_of, telling, of_two, of_more, of_three, of_four, free_port_of, place_at, listening_at, serving};

use listening_places::ListenPlace;
use pg_messages::PgStr;
use relation_words::{KeyBytes, read_bound, read_key, read_pid, read_within};

/// What the words of a command line order.
#[derive(Drop)]
pub enum Order<'w> {
    /// The clients that come to this place are served, each on a thread of its own, at most so many
    /// where there is a bound.
    Listen(ListenPlace<'w>, Option<u64>),
    /// The client on standard input is served under this process id and key.
    Serve(i32, KeyBytes),
    /// Standard output is told how the program is used.
    Help,
    /// Standard output is told the program's version.
    Version,
}

/// The order of the words behind the program's name: `serve PID KEY`, `listen [tcp] PORT [COUNT]`,
/// `listen unix PATH [COUNT]`, `--help` or `--version`. PID is 1 to 2147483647, KEY an even number of
/// hexadecimal digits, 8 to 512 of them, PORT 0 to 65535, where 0 is any free port, PATH isn't empty,
/// and COUNT is 0 to 10000. Numbers are in decimal, without a sign or a leading zero. None for any
/// other words.
pub fn order_of<'w>(words: &'w [PgStr]) -> Option<Order<'w>>
    ensures { option_map told_order result ≡ order_of words.now }
{
    match words {
        [_, word] => told_by(word.as_str()),
        [_, command, first] => order_of_two(command.as_str(), first.as_str()),
        _ => order_of_more(words),
    }
}

/// What three or four words behind the program's name order.
fn order_of_more<'w>(words: &'w [PgStr]) -> Option<Order<'w>>
    ensures { option_map told_order result ≡ of_more words.now }
{
    match words {
        [_, command, first, second] => {
            order_of_three(command.as_str(), first.as_str(), second.as_str())
        }
        [_, command, first, second, third] => order_of_four(
            command.as_str(),
            first.as_str(),
            second.as_str(),
            third.as_str(),
        ),
        _ => None,
    }
}

/// What one word orders.
fn told_by<'w>(word: &'w str) -> Option<Order<'w>>
    ensures { option_map told_order result ≡ telling word.now }
{
    match word {
        "--help" => Some(Order::Help),
        "--version" => Some(Order::Version),
        _ => None,
    }
}

/// What two words order.
fn order_of_two<'w>(command: &str, word: &'w str) -> Option<Order<'w>>
    ensures { option_map told_order result ≡ of_two command.now word.now }
{
    if command != "listen" {
        return None;
    }
    let port = read_port(word)?;
    Some(Order::Listen(port, None))
}

/// What three words order.
fn order_of_three<'w>(command: &str, first: &'w str, second: &'w str) -> Option<Order<'w>>
    ensures { option_map told_order result ≡ of_three command.now first.now second.now }
{
    if command == "serve" {
        return serve_as(read_pid(first), read_key(second));
    }
    if command != "listen" {
        return None;
    }
    match listen_unbounded(first, second) {
        Some(order) => Some(order),
        None => listen_at_port(first, second),
    }
}

/// What four words order.
fn order_of_four<'w>(command: &str, kind: &str, place: &'w str, count: &str) -> Option<Order<'w>>
    ensures { option_map told_order result
        ≡ of_four command.now kind.now place.now count.now }
{
    if command == "listen" {
        listen_bounded(kind, place, count)
    } else {
        None
    }
}

/// To listen at a place that is told by its kind, without a bound.
fn listen_unbounded<'w>(kind: &str, place: &'w str) -> Option<Order<'w>>
    ensures { option_map told_order result
        ≡ listening_at (place_at kind.now place.now) (Some None) }
{
    let place = read_place(kind, place)?;
    Some(Order::Listen(place, None))
}

/// To listen at a place that is told by its kind, with a bound.
fn listen_bounded<'w>(kind: &str, place: &'w str, count: &str) -> Option<Order<'w>>
    ensures { option_map told_order result
        ≡ listening_at (place_at kind.now place.now) (bound_of count.now) }
{
    let place = read_place(kind, place)?;
    let count = read_bound(count)?;
    Some(Order::Listen(place, count))
}

/// To listen at a port, with a bound.
fn listen_at_port<'w>(port: &'w str, count: &str) -> Option<Order<'w>>
    ensures { option_map told_order result
        ≡ listening_at (free_port_of port.now) (bound_of count.now) }
{
    let port = read_port(port)?;
    let count = read_bound(count)?;
    Some(Order::Listen(port, count))
}

/// To serve, where the pid and the key are good.
fn serve_as<'w>(pid: Option<i32>, key: Option<KeyBytes>) -> Option<Order<'w>>
    ensures { option_map told_order result ≡ serving pid key }
{
    Some(Order::Serve(pid?, key?))
}

/// The place: a port under `tcp`, a path under `unix`.
fn read_place<'w>(kind: &str, place: &'w str) -> Option<ListenPlace<'w>>
    ensures { option_map told_place result ≡ place_at kind.now place.now }
{
    if kind == "tcp" {
        return read_port(place);
    }
    if kind == "unix" && !place.is_empty() {
        Some(ListenPlace::Unix(place))
    } else {
        None
    }
}

/// A port: 0 to 65535.
fn read_port<'w>(word: &'w str) -> Option<ListenPlace<'w>>
    ensures { option_map told_place result ≡ free_port_of word.now }
{
    let port = read_within(0, 65_535, word)?;
    Some(ListenPlace::Tcp(port as u16))
}
