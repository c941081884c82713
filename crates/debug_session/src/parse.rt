//! Packets to commands.
ghost use Rattle.std.specs.Prelude.{◌≡◌, ◌≤◌, length, IfOk};
ghost use Rattle.debug_session.specs.Parse as spec;

use crate::commands::{Command, Fixed, Go, Look};
use crate::monitor::monitor;
use fs_model::NoMemory;
use gdb_packets::number_in;
use std::alloc::Global;
use timeline::{Watch, WatchKind};

/// The base of the numbers in packets.
const HEX: u32 = 16;

/// The number of the only thread.
const THREAD: u32 = 1;

pub(crate) fn is(bytes: &[u8], word: &[u8]) -> bool
    ensures { result ≡ spec.is bytes.now word.now }
{
    bytes == word
}

pub(crate) fn begins(bytes: &[u8], word: &[u8]) -> bool
    ensures { result ≡ spec.begins_with bytes.now word.now }
{
    bytes.len() >= word.len() && &bytes[..word.len()] == word
}

fn either(a: bool, b: bool) -> bool
    ensures { result ≡ spec.either a b }
{
    a || b
}

/// Returns the bytes after the first `count`.
pub(crate) fn behind(count: usize, bytes: &[u8]) -> &[u8]
    ensures { result.now ≡ spec.text_behind count bytes.entry.now }
{
    if count <= bytes.len() {
        &bytes[count..]
    } else {
        &[]
    }
}

// Returns the number of bytes before the first comma.
fn comma(bytes: &[u8]) -> usize
    ensures value { result ≡ spec.comma bytes.now }
    ensures few { result ≤ length bytes.now }
{
    bytes.iter().take_while(|byte| **byte != b',').count()
}

fn before_comma(bytes: &[u8]) -> &[u8]
    ensures { result.now ≡ spec.before_comma bytes.entry.now }
{
    &bytes[..comma(bytes)]
}

fn after_comma(bytes: &[u8]) -> &[u8]
    ensures { result.now ≡ spec.after_comma bytes.entry.now }
{
    behind(comma(bytes) + 1, bytes)
}

// Returns the two hexadecimal numbers with a comma between them.
fn two_numbers(bytes: &[u8]) -> Option<(u32, u32)>
    ensures { result ≡ spec.two_numbers bytes.now }
{
    let first = number_in(HEX, before_comma(bytes))?;
    let second = number_in(HEX, after_comma(bytes))?;
    Some((first, second))
}

fn memory(bytes: &[u8]) -> Command
    ensures { result ≡ spec.memory bytes.now }
{
    match two_numbers(bytes) {
        Some((at, count)) => Command::Look(Look::Memory(at, count)),
        None => Command::Look(Look::Fixed(Fixed::Malformed)),
    }
}

fn features(bytes: &[u8]) -> Command
    ensures { result ≡ spec.features bytes.now }
{
    match two_numbers(bytes) {
        Some((at, most)) => Command::Look(Look::Features(at, most)),
        None => Command::Look(Look::Fixed(Fixed::Malformed)),
    }
}

fn register(bytes: &[u8]) -> Command
    ensures { result ≡ spec.register bytes.now }
{
    match number_in(HEX, bytes) {
        Some(number) => Command::Look(Look::Register(number)),
        None => Command::Look(Look::Fixed(Fixed::Malformed)),
    }
}

// With an address the run would go on elsewhere.
fn moving(command: Command, rest: &[u8]) -> Command
    ensures { result ≡ spec.moving command rest.now }
{
    if rest.is_empty() {
        command
    } else {
        Command::Look(Look::Fixed(Fixed::Refused))
    }
}

// The signal is not delivered.
fn signalled(command: Command, rest: &[u8]) -> Command
    ensures { result ≡ spec.signalled command rest.now }
{
    match number_in(HEX, rest) {
        Some(_) => command,
        None => Command::Look(Look::Fixed(Fixed::Refused)),
    }
}

fn backwards(rest: &[u8]) -> Command
    ensures { result ≡ spec.backwards rest.now }
{
    if is(rest, b"s") {
        Command::Go(Go::StepBack)
    } else if is(rest, b"c") {
        Command::Go(Go::ContinueBack)
    } else {
        Command::Look(Look::Fixed(Fixed::Unknown))
    }
}

// Returns whether a thread has the number of the only one, or it is that of any thread.
fn is_own_number(number: Option<u32>) -> bool
    ensures { result ≡ spec.is_own_number number }
{
    match number {
        Some(number) => number <= THREAD,
        None => false,
    }
}

// Returns whether a thread-id names the only thread.
fn is_thread(id: &[u8]) -> bool
    ensures { result ≡ spec.is_thread id.now }
{
    either(is(id, b"-1"), is_own_number(number_in(HEX, id)))
}

fn about_thread(id: &[u8]) -> Command
    ensures { result ≡ spec.about_thread id.now }
{
    if is_thread(id) {
        Command::Look(Look::Fixed(Fixed::Accepted))
    } else {
        Command::Look(Look::Fixed(Fixed::Malformed))
    }
}

fn chosen(rest: &[u8]) -> Command
    ensures { result ≡ spec.chosen rest.now }
{
    if either(begins(rest, b"g"), begins(rest, b"c")) {
        about_thread(behind(1, rest))
    } else {
        Command::Look(Look::Fixed(Fixed::Malformed))
    }
}

fn is_breakpoint(rest: &[u8]) -> bool
    ensures { result ≡ spec.is_breakpoint rest.now }
{
    either(begins(rest, b"0,"), begins(rest, b"1,"))
}

// Returns the address of a breakpoint, and its kind.
fn breakpoint(rest: &[u8]) -> Option<(u32, u32)>
    ensures { result ≡ spec.breakpoint rest.now }
{
    two_numbers(behind(2, rest))
}

// Returns the kind of a watchpoint.
fn kind_in(rest: &[u8]) -> Option<WatchKind>
    ensures { result ≡ spec.kind_in rest.now }
{
    if begins(rest, b"2,") {
        Some(WatchKind::Write)
    } else if begins(rest, b"3,") {
        Some(WatchKind::Read)
    } else if begins(rest, b"4,") {
        Some(WatchKind::Access)
    } else {
        None
    }
}

fn is_range(at: u32, length: u32) -> bool
    ensures { result ≡ spec.is_range at length }
{
    0 < length && at as u64 + length as u64 <= 1 << 32
}

// Returns the watchpoint of this kind, if its bytes are in the address space.
fn watch_in(kind: WatchKind, rest: &[u8]) -> Option<Watch>
    ensures { result ≡ spec.watch_in kind rest.now }
{
    let (address, length) = two_numbers(behind(2, rest))?;
    if is_range(address, length) {
        Some(Watch {
            kind,
            address,
            length,
        })
    } else {
        None
    }
}

fn watch(rest: &[u8]) -> Command
    ensures { result ≡ spec.watch_by (spec.kind_in rest.now) rest.now }
{
    let Some(kind) = kind_in(rest) else {
        return Command::Look(Look::Fixed(Fixed::Unknown));
    };
    match watch_in(kind, rest) {
        Some(watch) => Command::Go(Go::Watch(watch)),
        None => Command::Look(Look::Fixed(Fixed::Malformed)),
    }
}

fn unwatch(rest: &[u8]) -> Command
    ensures { result ≡ spec.unwatch_by (spec.kind_in rest.now) rest.now }
{
    let Some(kind) = kind_in(rest) else {
        return Command::Look(Look::Fixed(Fixed::Unknown));
    };
    match watch_in(kind, rest) {
        Some(watch) => Command::Go(Go::Unwatch(watch)),
        None => Command::Look(Look::Fixed(Fixed::Malformed)),
    }
}

fn insert(rest: &[u8]) -> Command
    ensures { result ≡ spec.insert rest.now }
{
    if !is_breakpoint(rest) {
        return watch(rest);
    }
    match breakpoint(rest) {
        Some((at, _kind)) => Command::Go(Go::Insert(at)),
        None => Command::Look(Look::Fixed(Fixed::Malformed)),
    }
}

fn remove(rest: &[u8]) -> Command
    ensures { result ≡ spec.remove rest.now }
{
    if !is_breakpoint(rest) {
        return unwatch(rest);
    }
    match breakpoint(rest) {
        Some((at, _kind)) => Command::Go(Go::Remove(at)),
        None => Command::Look(Look::Fixed(Fixed::Malformed)),
    }
}

// Returns what a packet asks whose name begins with `v`. A restart has no program to choose, and nothing is killed
// before it.
fn multiletter(packet: &[u8]) -> Command
    ensures { result ≡ spec.multiletter packet.now }
{
    if begins(packet, b"vRun;") {
        Command::Go(Go::Restart)
    } else if begins(packet, b"vKill;") {
        Command::Look(Look::Fixed(Fixed::Accepted))
    } else if is(packet, b"vCont?") {
        Command::Look(Look::Fixed(Fixed::Actions))
    } else if either(begins(packet, b"vCont;s"), begins(packet, b"vCont;S")) {
        Command::Go(Go::Step)
    } else if either(begins(packet, b"vCont;c"), begins(packet, b"vCont;C")) {
        Command::Go(Go::Continue)
    } else {
        Command::Look(Look::Fixed(Fixed::Unknown))
    }
}

#[tactic(auto, unfolding(crate::specs::Parse::plain_query))]
fn plain_query(packet: &[u8]) -> Command
    ensures { result ≡ spec.plain_query packet.now }
{
    if begins(packet, b"qSupported") {
        Command::Look(Look::Fixed(Fixed::Supported))
    } else if is(packet, b"QStartNoAckMode") {
        Command::NoAcks
    } else if begins(packet, b"qXfer:features:read:target.xml:") {
        features(behind(31, packet))
    } else if is(packet, b"qC") {
        Command::Look(Look::Fixed(Fixed::CurrentThread))
    } else if is(packet, b"qfThreadInfo") {
        Command::Look(Look::Fixed(Fixed::FirstThreads))
    } else if is(packet, b"qsThreadInfo") {
        Command::Look(Look::Fixed(Fixed::OtherThreads))
    } else if begins(packet, b"qAttached") {
        Command::Look(Look::Fixed(Fixed::Attached))
    } else {
        Command::Look(Look::Fixed(Fixed::Unknown))
    }
}

// Returns what a letter asks that needs no other function.
#[tactic(auto, unfolding(crate::specs::Parse::simple))]
fn simple(letter: u8) -> Command
    ensures { result ≡ spec.simple letter }
{
    match letter {
        b'?' => Command::Look(Look::Fixed(Fixed::WhyStopped)),
        b'!' => Command::Look(Look::Fixed(Fixed::Accepted)),
        b'g' => Command::Look(Look::Registers),
        b'G' | b'P' | b'M' | b'X' => Command::Look(Look::Fixed(Fixed::Refused)),
        b'D' => Command::Detach,
        b'k' => Command::Kill,
        _ => Command::Look(Look::Fixed(Fixed::Unknown)),
    }
}

#[tactic(auto, unfolding(crate::specs::Parse::lettered))]
fn lettered(letter: u8, rest: &[u8], packet: &[u8]) -> Command
    ensures { result ≡ spec.lettered letter rest.now packet.now }
{
    match letter {
        b'q' | b'Q' => plain_query(packet),
        b'v' => multiletter(packet),
        b'm' => memory(rest),
        b'p' => register(rest),
        b's' => moving(Command::Go(Go::Step), rest),
        b'c' => moving(Command::Go(Go::Continue), rest),
        b'S' => signalled(Command::Go(Go::Step), rest),
        b'C' => signalled(Command::Go(Go::Continue), rest),
        b'b' => backwards(rest),
        b'H' => chosen(rest),
        b'T' => about_thread(rest),
        b'Z' => insert(rest),
        b'z' => remove(rest),
        _ => simple(letter),
    }
}

/// Returns what a packet asks, by its data without escapes.
///
/// # Errors
///
/// `NoMemory` if memory is refused.
pub fn command_in(alloc: Global, packet: &[u8]) -> Result<Command, NoMemory>
    ensures { IfOk result (λ k. k ≡ spec.command_of packet.now) }
{
    if begins(packet, b"qRcmd,") {
        return monitor(alloc, behind(6, packet));
    }
    match packet {
        [letter, rest @ ..] => Ok(lettered(*letter, rest, packet)),
        [] => Ok(Command::Look(Look::Fixed(Fixed::Unknown))),
    }
}
