//! The words of the command line.
ghost use Rattle.std.specs.Prelude.{map, codes, string_bytes, ◌∷◌, []};
ghost use Rattle.session_core.specs.Command.{ReadsCapacity, ReadsCounts, ReadsRounds, ReadsCommand, ReadsFromOne, ReadsPlan, ReadsUpTo};

use event_text::{count_bytes, read_number};
use relay_run::{MOST_LIMIT, MOST_RELAY_ROUNDS, Plan};

/// The most entries of `run`'s queue. (not in monoio)
pub const MOST_ENTRIES: u64 = 4294967295;

/// The greatest seed of `gen`. (not in monoio)
pub const MOST_SEED: u64 = 2147483647;

/// The most rounds of `gen`. (not in monoio)
pub const MOST_ROUNDS: u64 = 100000;

/// The most senders of `wake`. (not in monoio)
pub const MOST_SENDERS: u64 = 64;

/// The most wakers of each sender of `wake`. (not in monoio)
pub const MOST_COUNT: u64 = 100000;

/// The most bytes of each buffer of `copy`. (not in monoio)
pub const MOST_CAPACITY: u64 = 16777216;

/// The greatest port of `echo` and `relay`. (not in monoio)
pub const MOST_PORT: u64 = 65535;

/// A command of the program. (not in monoio)
#[derive(Clone, Copy, Debug, PartialEq, Eq)]
pub enum Command<'a> {
    /// `run CAP`: runs the events that are read, over a queue of so many entries, at least one.
    Run(u32),
    /// `ready`: runs the events that are read on the readiness driver.
    Ready,
    /// `gen SEED COUNT`: generates the events of so many rounds from a seed, and runs them.
    Generate(u32, u32),
    /// `gen SEED COUNT --events`: generates the same events, and writes their texts.
    Trace(u32, u32),
    /// `wake SENDERS COUNT`: so many senders, at most 64, send so many wakers each, at most 100000.
    Wake(u64, u32),
    /// `copy CAP PREFIXHEX`: writes the bytes that this word writes, and then the input, by way of buffers of so many bytes, at
    /// least one.
    Copy(u32, &'a [u8]),
    /// `unframe`: writes the lines of the messages whose pieces are read.
    Unframe,
    /// `echo PORT CONNECTIONS ROUNDS` and `relay PORT TO CONNECTIONS ROUNDS`: makes the rounds of a relay that listens on a port.
    Relay(Plan),
    /// `tasks`: runs a job for each line of bytes that is read, and writes what they are done with.
    Tasks,
}

/// The command that words write; `None` if they write none. Numbers have no sign and no leading zero. (not in monoio)
pub fn command_of(words: &[String]) -> Option<Command<'_>>
    ensures { ReadsCommand (map string_bytes words.now) result }
{
    match words {
        [name] => single_of(name.as_str()),
        [name, capacity] => run_of(name.as_str(), capacity.as_str()),
        [name, first, second] => counted_of(name.as_str(), first.as_str(), second.as_str()),
        [name, first, second, third] => four_of(
            name.as_str(),
            first.as_str(),
            second.as_str(),
            third.as_str(),
        ),
        [name, port, to, connections, rounds] => five_of(
            name.as_str(),
            port.as_str(),
            to.as_str(),
            connections.as_str(),
            rounds.as_str(),
        ),
        _ => None,
    }
}

// The command of one word: `ready`, `unframe` or `tasks`.
fn single_of<'a>(name: &str) -> Option<Command<'a>>
    ensures { ReadsCommand (name.now ∷ []) result }
{
    if name == "ready" {
        return Some(Command::Ready);
    }
    if name == "unframe" {
        return Some(Command::Unframe);
    }
    if name == "tasks" {
        return Some(Command::Tasks);
    }
    None
}

// The command `run` of two words.
fn run_of<'a>(name: &str, capacity: &str) -> Option<Command<'a>>
    ensures { ReadsCommand (name.now ∷ capacity.now ∷ []) result }
{
    if name == "run" {
        capacity_of(capacity.as_bytes())
    } else {
        None
    }
}

// The command of a capacity: a decimal number from 1 to 4294967295.
fn capacity_of<'a>(word: &[u8]) -> Option<Command<'a>>
    ensures { ReadsCapacity word.now result }
{
    match read_number(word) {
        Some(capacity) if 1 <= capacity && capacity <= MOST_ENTRIES => Some(Command::Run(
            capacity as u32,
        )),
        _ => None,
    }
}

// The command of three words: `wake` or `gen`, and two numbers, or `copy`, a number and bytes.
fn counted_of<'a>(name: &str, first: &str, second: &'a str) -> Option<Command<'a>>
    ensures { ReadsCommand (name.now ∷ first.now ∷ second.now ∷ []) result }
{
    if name == "wake" {
        return wake_of(first.as_bytes(), second.as_bytes());
    }
    if name == "gen" {
        return generate_of(first.as_bytes(), second.as_bytes());
    }
    if name == "copy" {
        return copy_of(first.as_bytes(), second.as_bytes());
    }
    None
}

// The command of how many senders there are, and how many wakers each sends.
fn wake_of<'a>(senders: &[u8], count: &[u8]) -> Option<Command<'a>>
    ensures { ReadsCounts senders.now count.now result }
{
    let senders = number_up_to(senders, MOST_SENDERS)?;
    let count = number_up_to(count, MOST_COUNT)?;
    Some(Command::Wake(senders, count as u32))
}

// The command of a seed, and how many rounds it generates.
fn generate_of<'a>(seed: &[u8], rounds: &[u8]) -> Option<Command<'a>>
    ensures { ReadsRounds seed.now rounds.now result }
{
    let seed = number_up_to(seed, MOST_SEED)?;
    let rounds = number_up_to(rounds, MOST_ROUNDS)?;
    Some(Command::Generate(seed as u32, rounds as u32))
}

// The command of four words: `echo` and three numbers, or `gen`, two numbers and `--events`.
fn four_of<'a>(name: &str, first: &str, second: &str, third: &str) -> Option<Command<'a>>
    ensures { ReadsCommand (name.now ∷ first.now ∷ second.now ∷ third.now ∷ []) result }
{
    if name == "echo" {
        return echo_of(first.as_bytes(), second.as_bytes(), third.as_bytes());
    }
    if name == "gen" && third == "--events" {
        let seed = number_up_to(first.as_bytes(), MOST_SEED)?;
        let rounds = number_up_to(second.as_bytes(), MOST_ROUNDS)?;
        return Some(Command::Trace(seed as u32, rounds as u32));
    }
    None
}

// The command of a port, of connections and of rounds.
fn echo_of<'a>(port: &[u8], connections: &[u8], rounds: &[u8]) -> Option<Command<'a>>
    ensures { ReadsCommand (codes "echo" ∷ port.now ∷ connections.now ∷ rounds.now ∷ []) result }
{
    match plan_of(port, None, connections, rounds) {
        Some(plan) => Some(Command::Relay(plan)),
        None => None,
    }
}

// The command of five words: `relay`, two ports and two numbers.
fn five_of<'a>(
    name: &str,
    port: &str,
    to: &str,
    connections: &str,
    rounds: &str,
) -> Option<Command<'a>>
    ensures { ReadsCommand (name.now ∷ port.now ∷ to.now ∷ connections.now ∷ rounds.now ∷ []) result }
{
    if name != "relay" {
        return None;
    }
    relay_of(
        port.as_bytes(),
        to.as_bytes(),
        connections.as_bytes(),
        rounds.as_bytes(),
    )
}

// The command of two ports, of connections and of rounds.
fn relay_of<'a>(port: &[u8], to: &[u8], connections: &[u8], rounds: &[u8]) -> Option<Command<'a>>
    ensures { ReadsCommand (codes "relay" ∷ port.now ∷ to.now ∷ connections.now ∷ rounds.now ∷ []) result }
{
    let Some(to) = number_from_one(to, MOST_PORT) else {
        return None;
    };
    match plan_of(port, Some(to as u16), connections, rounds) {
        Some(plan) => Some(Command::Relay(plan)),
        None => None,
    }
}

// The plan of a port, of connections and of rounds, with this other end.
fn plan_of(port: &[u8], to: Option<u16>, connections: &[u8], rounds: &[u8]) -> Option<Plan>
    ensures { ReadsPlan to port.now connections.now rounds.now result }
{
    let port = number_from_one(port, MOST_PORT)?;
    let limit = number_from_one(connections, MOST_LIMIT as u64)?;
    let rounds = number_up_to(rounds, MOST_RELAY_ROUNDS as u64)?;
    Some(Plan {
        port: port as u16,
        to,
        limit: limit as u32,
        rounds: rounds as u32,
    })
}

// The command of a capacity from 1 to 16777216, and the word of a prefix.
fn copy_of<'a>(capacity: &[u8], prefix: &'a [u8]) -> Option<Command<'a>>
    ensures { ReadsCommand (codes "copy" ∷ capacity.now ∷ prefix.now ∷ []) result }
{
    let capacity = number_up_to(capacity, MOST_CAPACITY)?;
    if capacity == 0 {
        return None;
    }
    let _ = count_bytes(prefix)?;
    Some(Command::Copy(capacity as u32, prefix))
}

// A decimal number that isn't greater than the most.
fn number_up_to(word: &[u8], most: u64) -> Option<u64>
    ensures { ReadsUpTo most word.now result }
{
    match read_number(word) {
        Some(number) if number <= most => Some(number),
        _ => None,
    }
}

// A decimal number from 1 to the most.
fn number_from_one(word: &[u8], most: u64) -> Option<u64>
    ensures { ReadsFromOne most word.now result }
{
    match number_up_to(word, most) {
        Some(number) if number >= 1 => Some(number),
        _ => None,
    }
}
