//! The words of `listen`.

ghost use Rattle.std.specs.Prelude.{◌≡◌, None, codes, is_some, option_map, if◌then◌else◌};
ghost use Rattle.std.specs.Str.{bytes_eq};
ghost use Rattle.relation_words.specs.Listening.{told_place, told_listening, place_of, port_of, bound_of, listening, listening_of, listen_place_of, listen_count_of};

use crate::numbers::read_within;
use listening_places::ListenPlace;
use pg_messages::PgStr;

/// What good words of `listen` tell beside their file.
#[derive(Clone, Copy)]
struct Listening<'a> {
    place: ListenPlace<'a>,
    /// How many connections are served at most.
    count: Option<u64>,
}

/// Where the words order to listen: `listen tcp PORT FILE [COUNT]` or `listen unix PATH FILE
/// [COUNT]`. PORT is 1 to 65535, PATH isn't empty, COUNT is 0 to 10000. Numbers are in decimal,
/// without a sign or a leading zero. None for any other words.
pub fn listen_place<'a>(words: &'a [PgStr]) -> Option<ListenPlace<'a>>
    ensures { option_map told_place result ≡ listen_place_of words.now }
{
    Some(read_listening(words)?.place)
}

/// COUNT of the words that [`listen_place`] reads, or `Some(None)` where they leave it out, so that
/// there is no bound. None for any other words.
pub fn listen_count(words: &[PgStr]) -> Option<Option<u64>>
    ensures { result ≡ listen_count_of words.now }
{
    Some(read_listening(words)?.count)
}

/// Whether the words are a good `listen`.
pub(crate) fn is_listening(words: &[PgStr]) -> bool
    ensures { result ≡ is_some (listening_of words.now) }
{
    read_listening(words).is_some()
}

/// What the words tell, where they are a good `listen`.
fn read_listening<'a>(words: &'a [PgStr]) -> Option<Listening<'a>>
    ensures { option_map told_listening result ≡ listening_of words.now }
{
    match words {
        [command, kind, place, _] => {
            make_listening(command.as_str(), kind.as_str(), place.as_str(), Some(None))
        }
        [command, kind, place, _, count] => {
            let count = read_bound(count.as_str());
            make_listening(command.as_str(), kind.as_str(), place.as_str(), count)
        }
        _ => None,
    }
}

/// What the words tell, where the command is `listen` and the place and the count are good.
fn make_listening<'a>(
    command: &str,
    kind: &str,
    place: &'a str,
    count: Option<Option<u64>>,
) -> Option<Listening<'a>>
    ensures { option_map told_listening result
        ≡ (if bytes_eq command.now (codes "listen") then listening (place_of kind.now place.now)
        count else None) }
{
    if command != "listen" {
        return None;
    }
    let place = read_place(kind, place)?;
    let count = count?;
    Some(Listening { place, count })
}

/// The place: a port under `tcp`, a path under `unix`.
fn read_place<'a>(kind: &str, place: &'a str) -> Option<ListenPlace<'a>>
    ensures { option_map told_place result ≡ place_of kind.now place.now }
{
    if kind == "tcp" {
        return Some(ListenPlace::Tcp(read_port(place)?));
    }
    if kind == "unix" && !place.is_empty() {
        Some(ListenPlace::Unix(place))
    } else {
        None
    }
}

/// A port: 1 to 65535.
fn read_port(word: &str) -> Option<u16>
    ensures { result ≡ port_of word.now }
{
    let port = read_within(1, 65_535, word)?;
    Some(port as u16)
}

/// COUNT, a bound on the connections: 0 to 10000. None for any other word.
pub fn read_bound(word: &str) -> Option<Option<u64>>
    ensures { result ≡ bound_of word.now }
{
    let bound = read_within(0, 10_000, word)?;
    Some(Some(bound))
}
