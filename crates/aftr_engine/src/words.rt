//! The words of the command line.
ghost use Rattle.std.specs.Prelude.{◌≡◌, ◌≤◌, ◌∷◌, [], Some, None, IfSome, IfNone, option_map, if◌then◌else◌};
ghost use Rattle.std.specs.List.{list_any};
ghost use Rattle.aftr_base.specs.Bytes.{split_on};
ghost use Rattle.aftr_engine.specs.words.Words.{is_odd, number_upto, value_of, is_octet, begins_well, address_in, address_of, traced, with_one, with_four, command_in, command_for, paths_with, paths_for, log_use};
ghost use Rattle.aftr_base.specs.Limits.{log_moment_limit};

use aftr_base::{Ip4, LOG_MOMENT_LIMIT, Moment, Word};

/// A command with its values; its paths are the other words.
#[derive(Clone, Copy, Debug, PartialEq, Eq)]
pub enum Command {
    /// Makes an empty log.
    Init,
    /// Translates one input of frames.
    Run,
    /// Asks who had a place at a moment, in milliseconds.
    Trace { addr: Ip4, port: u16, at: Moment },
    /// Lists what the log tells.
    Leases,
}

/// Where the words of a command have its paths, counted from 0. The inputs are the `count` words from `first` on.
#[derive(Clone, Copy, Debug, PartialEq, Eq)]
pub struct Paths {
    pub config: Option<u8>,
    pub log: Option<u8>,
    pub outlet: Option<u8>,
    pub first: u8,
    pub count: u8,
}

/// Where the words have their paths, or `None` where they are no command. Takes no memory.
pub fn paths_of(words: &[Word]) -> Option<Paths>
    ensures { result ≡ paths_for words.now }
{
    match command_of(words) {
        Some(command) => Some(paths_with(command)),
        None => None,
    }
}

/// What a command does with its log.
#[derive(Clone, Copy, Debug, PartialEq, Eq)]
pub enum LogUse {
    /// It only reads it, and may do so while another command writes it.
    Reads,
    /// It writes it, as the only one.
    Writes,
}

/// What the words' command does with its log, or `None` where the words are no command. Takes no memory.
pub fn log_use_of(words: &[Word]) -> Option<LogUse>
    ensures { result ≡ option_map log_use (command_for words.now) }
{
    match command_of(words) {
        Some(command) => Some(log_use(command)),
        None => None,
    }
}

/// What a command does with its log.
fn log_use(command: Command) -> LogUse
    ensures { result ≡ log_use command }
{
    match command {
        Command::Init | Command::Run => LogUse::Writes,
        Command::Trace { .. } | Command::Leases => LogUse::Reads,
    }
}

/// The command that the words are, or `None` where they are none: `init LOG`, `run CONFIG LOG OUTLET INPUT`,
/// `trace LOG ADDRESS PORT MOMENT` or `leases LOG`. A word that is empty or begins with `-` makes them none. Takes no
/// memory.
pub fn command_of(words: &[Word]) -> Option<Command>
    ensures { result ≡ command_for words.now }
{
    if has_odd(words) {
        None
    } else {
        command_in(words)
    }
}

/// Whether one of the words can't be a path.
fn has_odd(words: &[Word]) -> bool
    ensures { result ≡ list_any is_odd words.now }
{
    words.iter().any(looks_odd)
}

/// The command that the words are, by their number.
fn command_in(words: &[Word]) -> Option<Command>
    ensures { result ≡ command_in words.now }
{
    match words {
        [name, _log] => with_one(name),
        [name, _, second, third, fourth] => with_four(name, second, third, fourth),
        _ => None,
    }
}

/// Where the words of a command have its paths.
fn paths_with(command: Command) -> Paths
    ensures { result ≡ paths_with command }
{
    match command {
        Command::Run => Paths {
            config: Some(1),
            log: Some(2),
            outlet: Some(3),
            first: 4,
            count: 1,
        },
        Command::Init | Command::Trace { .. } | Command::Leases => Paths {
            config: None,
            log: Some(1),
            outlet: None,
            first: 0,
            count: 0,
        },
    }
}

/// The command of this name with one path.
fn with_one(name: &Word) -> Option<Command>
    ensures { result ≡ with_one name.now }
{
    if name.as_str() == "init" {
        Some(Command::Init)
    } else if name.as_str() == "leases" {
        Some(Command::Leases)
    } else {
        None
    }
}

/// The command of this name with four words, of which the first is a path.
fn with_four(name: &Word, second: &Word, third: &Word, fourth: &Word) -> Option<Command>
    ensures { result ≡ with_four name.now second.now third.now fourth.now }
{
    if name.as_str() == "run" {
        Some(Command::Run)
    } else if name.as_str() == "trace" {
        trace_of(second.as_bytes(), third.as_bytes(), fourth.as_bytes())
    } else {
        None
    }
}

/// The trace that asks for this address, port and moment in milliseconds.
fn trace_of(addr: &[u8], port: &[u8], at: &[u8]) -> Option<Command>
    ensures { result ≡ traced (address_of addr.now) (number_upto 65535 port.now)
        (number_upto log_moment_limit at.now) }
{
    let addr = address_of(addr)?;
    let port = port_of(port)?;
    let at = number_of(at, LOG_MOMENT_LIMIT)?;
    Some(Command::Trace {
        addr,
        port,
        at: Moment(at),
    })
}

/// Whether a word can't be a path: it is empty, or it looks like an option.
fn looks_odd(word: &Word) -> bool
    ensures { result ≡ is_odd word.now }
{
    match word.as_bytes() {
        [] => true,
        [first, ..] => *first == b'-',
    }
}

/// The port that decimal digits spell.
fn port_of(text: &[u8]) -> Option<u16>
    ensures { result ≡ number_upto 65535 text.now }
{
    match number_of(text, 65535) {
        Some(number) => u16::try_from(number).ok(),
        None => None,
    }
}

/// The number that decimal digits spell, with leading zeros or without, if it is within the limit. It stops where the
/// number passes the limit, so a word can have any length.
fn number_of(text: &[u8], limit: u64) -> Option<u64>
    requires { limit ≤ 1000000000000000000 }
    ensures { result ≡ number_upto limit text.now }
{
    if text.is_empty() {
        return None;
    }
    let mut number = 0;
    for digit in text {
        if !digit.is_ascii_digit() {
            return None;
        }
        number = 10 * number + u64::from(*digit - b'0');
        if number > limit {
            return None;
        }
    }
    Some(number)
}

/// The address that four octets with dots between spell.
fn address_of(text: &[u8]) -> Option<Ip4>
    ensures { result ≡ address_of text.now }
{
    let (first, others) = cut_at_dot(text)?;
    let (second, others) = cut_at_dot(others)?;
    let (third, fourth) = cut_at_dot(others)?;
    match cut_at_dot(fourth) {
        None => address_with(first, second, third, fourth),
        Some(_) => None,
    }
}

/// The address of four octets.
fn address_with(first: &[u8], second: &[u8], third: &[u8], fourth: &[u8]) -> Option<Ip4>
    ensures { result ≡ address_in (first.now ∷ second.now ∷ third.now ∷ fourth.now ∷ []) }
{
    let a = octet_of(first)?;
    let b = octet_of(second)?;
    let c = octet_of(third)?;
    let d = octet_of(fourth)?;
    Some(Ip4(u32::from_be_bytes([a, b, c, d])))
}

/// What stands before the first dot, and what stands behind it.
fn cut_at_dot(text: &[u8]) -> Option<(&[u8], &[u8])>
    ensures found { IfSome result
        (λ parts. split_on 46 text.now ≡ parts.0.now ∷ split_on 46 parts.1.now) }
    ensures none { IfNone result (split_on 46 text.now ≡ text.now ∷ []) }
{
    for (place, byte) in text.iter().enumerate() {
        if *byte == b'.' {
            return Some((&text[..place], &text[place + 1..]));
        }
    }
    None
}

/// The octet that decimal digits spell, from 0 to 255 without leading zeros.
fn octet_of(text: &[u8]) -> Option<u8>
    ensures { result ≡ (if is_octet text.now then Some (value_of text.now) else None) }
{
    if !begins_well(text) {
        return None;
    }
    match number_of(text, 255) {
        Some(number) => u8::try_from(number).ok(),
        None => None,
    }
}

/// Whether a number has no leading zeros.
fn begins_well(text: &[u8]) -> bool
    ensures { result ≡ begins_well text.now }
{
    match text {
        [first, _, ..] => *first != b'0',
        _ => true,
    }
}
