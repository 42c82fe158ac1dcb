//! The commands of one conversation: `serve` and `demo`.

ghost use Rattle.std.specs.Prelude.{◌≡◌, None, codes, if◌then◌else◌, option_map, is_some, Some, IfOk, OnErr};
ghost use Rattle.std.specs.Str.{bytes_eq};
ghost use Rattle.relation_words.specs.Commands.{command_of, service_of, load_of, service, told_serving, pid_of, turns_of, load, seed_of, count_of};
ghost use Rattle.relation_words.specs.Keys.{key_of};
ghost use Rattle.relation_words.specs.declared.commands.Command.{Command};
ghost use Rattle.relation_words.specs.declared.commands.Service.{Service};

use crate::keys::{KeyBytes, read_key};
use crate::numbers::{read_number, read_within};
use pg_messages::{PgStr, SecretKey};
use std::alloc::{AllocError, Global};

/// How many turns a client has where the words tell none.
const TURNS: u64 = 1_000_000_000;

/// What the words of the command line order.
#[derive(Debug, PartialEq, Eq, Drop)]
pub enum Command {
    /// Serve the client's bytes over the relations of a file.
    Serve(Service),
    /// Serve a generated load.
    Demo(Load),
}

/// Under what a client is served.
#[derive(Debug, PartialEq, Eq, Drop)]
pub struct Service {
    /// The process id of the registration, from 1 on.
    pub pid: i32,
    /// The secret key of the registration.
    pub key: SecretKey,
    /// How many turns the client has, from 1 on.
    pub turns: u64,
}

/// What good words of `serve` tell beside their file, before the key is copied to memory of its own.
#[derive(Drop)]
struct Serving {
    pid: i32,
    key: KeyBytes,
    turns: u64,
}

/// What load is generated.
#[derive(Clone, Copy, Debug, PartialEq, Eq)]
pub struct Load {
    /// Where the generator of numbers starts.
    pub seed: u64,
    /// How many relations there are, up to 10000.
    pub count: u32,
}

/// The command that the words give: `serve FILE PID KEY [TURNS]` or `demo SEED N`. PID is 1 to
/// 2147483647, KEY an even number of hexadecimal digits of either case, 8 to 512 of them, TURNS 1 to
/// 18446744073709551615 and 1000000000 where it is left out, SEED 0 to 18446744073709551615, N 0 to
/// 10000. Numbers are in decimal, without a sign or a leading zero. None for any other words.
/// Judging the words takes no memory. The key of a good `serve` takes some, and the error comes
/// where there is none.
pub fn read_command(alloc: Global, words: &[PgStr]) -> Result<Option<Command>, AllocError>
    ensures ok { IfOk result (λ command. command ≡ command_of words.now) }
    ensures err { OnErr result ((service : Service)
        × (command_of words.now ≡ Some (Command.Serve service))) }
{
    match read_serving(words) {
        Some(serving) => Ok(Some(Command::Serve(serving.service(alloc)?))),
        None => Ok(read_load(words).map(Command::Demo)),
    }
}

/// Whether the words are a good `serve`.
pub(crate) fn is_serving(words: &[PgStr]) -> bool
    ensures { result ≡ is_some (service_of words.now) }
{
    read_serving(words).is_some()
}

impl Serving {
    /// The service, whose key takes memory.
    fn service(&self, alloc: Global) -> Result<Service, AllocError>
        ensures { IfOk result (λ service. service ≡ told_serving self.now) }
    {
        let key = self.key.secret_key(alloc)?;
        Ok(Service {
            pid: self.pid,
            key,
            turns: self.turns,
        })
    }
}

/// What the words `serve FILE PID KEY [TURNS]` tell, where they are good.
fn read_serving(words: &[PgStr]) -> Option<Serving>
    ensures { option_map told_serving result ≡ service_of words.now }
{
    match words {
        [command, _, pid, key] => make_serving(
            command.as_str(),
            pid.as_str(),
            key.as_str(),
            Some(TURNS),
        ),
        [command, _, pid, key, turns] => {
            let turns = read_turns(turns.as_str());
            make_serving(command.as_str(), pid.as_str(), key.as_str(), turns)
        }
        _ => None,
    }
}

/// What the words tell, where the command is `serve` and the pid, the key and the turns are good.
fn make_serving(command: &str, pid: &str, key: &str, turns: Option<u64>) -> Option<Serving>
    ensures { option_map told_serving result ≡ (if bytes_eq command.now (codes "serve") then service
        (pid_of pid.now) (key_of key.now) turns else None) }
{
    if command != "serve" {
        return None;
    }
    let pid = read_pid(pid)?;
    let key = read_key(key)?;
    let turns = turns?;
    Some(Serving { pid, key, turns })
}

/// The load that the words `demo SEED N` order.
fn read_load(words: &[PgStr]) -> Option<Load>
    ensures { result ≡ load_of words.now }
{
    match words {
        [command, seed, count] => make_load(command.as_str(), seed.as_str(), count.as_str()),
        _ => None,
    }
}

/// The load of this seed and this many relations, where the command is `demo` and both numbers are
/// good.
fn make_load(command: &str, seed: &str, count: &str) -> Option<Load>
    ensures { result ≡ (if bytes_eq command.now (codes "demo") then load (seed_of seed.now)
        (count_of count.now) else None) }
{
    if command != "demo" {
        return None;
    }
    let seed = read_number(seed)?;
    let count = read_count(count)?;
    Some(Load { seed, count })
}

/// A process id: 1 to 2147483647.
pub fn read_pid(word: &str) -> Option<i32>
    ensures { result ≡ pid_of word.now }
{
    let pid = read_within(1, 2_147_483_647, word)?;
    Some(pid as i32)
}

/// A number of turns: 1 to 18446744073709551615.
fn read_turns(word: &str) -> Option<u64>
    ensures { result ≡ turns_of word.now }
{
    read_within(1, u64::MAX, word)
}

/// A number of relations: 0 to 10000.
fn read_count(word: &str) -> Option<u32>
    ensures { result ≡ count_of word.now }
{
    let count = read_within(0, 10_000, word)?;
    Some(count as u32)
}
