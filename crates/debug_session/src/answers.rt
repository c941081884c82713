//! What a command answers.
ghost use Rattle.std.specs.Prelude.{◌≡◌, ◌++◌, [], IfOk, drop};
ghost use Rattle.std.specs.List.{flat_map};
ghost use Rattle.hex.specs.Hex.{encode_lower};
ghost use Rattle.gdb_packets.specs.Frames.{console, frame};
ghost use Rattle.debug_session.specs.Answers as spec;
ghost use Rattle.debug_session.specs.Session.{state_of};
ghost use Rattle.debug_session.specs.Texts.{stop_text};

use crate::advice::advice_text;
use crate::commands::{Command, Go, Look, Tell};
use crate::replies::{
    Stop, fixed_text, put, put_first, put_memory, put_part, put_register, put_registers, put_stop,
};
use crate::session::Session;
use crate::target::TARGET;
use fs_model::NoMemory;
use gdb_packets::{push_console, push_frame, push_hex};

// Appends the packets that show what the run has sent since it had sent `before` bytes.
fn push_sent(out: &mut Vec<u8>, session: &Session, before: usize) -> Result<(), NoMemory>
    ensures { IfOk result (λ _. out.new.items ≡ out.old.items ++ flat_map console (drop before (state_of session.now).output)) }
{
    let output = session.output();
    if before <= output.len() {
        push_console(out, &output[before..])
    } else {
        Ok(())
    }
}

// Puts the answer to a question about the state into the empty text.
fn put_look(session: &Session, look: Look, text: &mut Vec<u8>) -> Result<(), NoMemory>
    requires { text.old.items ≡ [] }
    ensures { IfOk result (λ _. text.new.items ≡ spec.look_text session.now look) }
{
    match look {
        Look::Fixed(fixed) => put(text, fixed_text(fixed)),
        Look::Registers => put_registers(text, session.machine()),
        Look::Register(number) => put_register(text, session.machine(), number),
        Look::Memory(at, count) => put_memory(text, session.case(), session.machine(), at, count),
        Look::Features(begin, most) => put_part(text, TARGET, begin, most),
    }
}

// Appends what the run has sent since it had sent `before` bytes, and puts why it stands still into the empty text.
fn put_arrival(
    session: &Session,
    before: usize,
    stop: Stop,
    text: &mut Vec<u8>,
    out: &mut Vec<u8>,
) -> Result<(), NoMemory>
    requires { text.old.items ≡ [] }
    ensures text { IfOk result (λ _. text.new.items ≡ stop_text stop) }
    ensures sent { IfOk result (λ _. out.new.items ≡ out.old.items ++ flat_map console (drop before (state_of session.now).output)) }
{
    push_sent(out, session, before)?;
    put_stop(text, stop)
}

// Goes to another place, and puts the answer into the empty text.
fn put_go(
    session: &mut Session,
    go: Go,
    text: &mut Vec<u8>,
    out: &mut Vec<u8>,
) -> Result<(), NoMemory>
    requires { text.old.items ≡ [] }
    ensures session { IfOk result (λ _. session.new ≡ spec.gone session.old go) }
    ensures text { IfOk result (λ _. text.new.items ≡ spec.go_text session.old go) }
    ensures sent { IfOk result (λ _. out.new.items ≡ out.old.items ++ flat_map console (spec.go_sent session.old go)) }
{
    match go {
        Go::Step => {
            let before = session.output().len();
            let stop = session.step();
            put_arrival(session, before, stop, text, out)
        }
        Go::Continue => {
            let before = session.output().len();
            let stop = session.go_on();
            put_arrival(session, before, stop, text, out)
        }
        Go::StepBack => {
            let stop = session.step_back();
            put_stop(text, stop)
        }
        Go::ContinueBack => {
            let stop = session.go_back();
            put_stop(text, stop)
        }
        Go::Restart => {
            session.restart();
            put_stop(text, Stop::Moved)
        }
        Go::To(place) => {
            session.go_to(place);
            put(text, b"OK")
        }
        Go::First => {
            let first = session.go_to_first();
            put_first(text, first)
        }
        Go::Show(shown) => {
            session.show(shown);
            put(text, b"OK")
        }
        Go::Insert(address) => {
            session.insert(address)?;
            put(text, b"OK")
        }
        Go::Remove(address) => {
            session.remove(address);
            put(text, b"OK")
        }
        Go::Watch(watch) => {
            session.watch(watch)?;
            put(text, b"OK")
        }
        Go::Unwatch(watch) => {
            session.unwatch(watch);
            put(text, b"OK")
        }
    }
}

// Puts the words that answer a person's question into the empty text, in digits. `words` is an empty buffer.
fn put_tell(
    session: &mut Session,
    tell: Tell,
    words: &mut Vec<u8>,
    text: &mut Vec<u8>,
) -> Result<(), NoMemory>
    requires words { words.old.items ≡ [] }
    requires text { text.old.items ≡ [] }
    ensures session { session.new ≡ session.old }
    ensures words { IfOk result (λ _. words.new.items ≡ []) }
    ensures text { IfOk result (λ _. text.new.items ≡ encode_lower (spec.tell_words session.old tell)) }
{
    match tell {
        Tell::Site => session.put_site(words)?,
        Tell::Differences => session.put_differences(words)?,
        Tell::Output => session.put_output(words)?,
        Tell::LastWrite(register) => session.put_last_write(words, register)?,
        Tell::Advice(advice) => put(words, advice_text(advice))?,
    }
    push_hex(text, words.as_slice())?;
    words.clear();
    Ok(())
}

/// Appends the packets that answer a command, and goes where it asks. `text` is a buffer.
///
/// # Errors
///
/// `NoMemory` if memory is refused.
pub fn answer(
    session: &mut Session,
    command: Command,
    text: &mut Vec<u8>,
    out: &mut Vec<u8>,
) -> Result<(), NoMemory>
    requires { out.old.items ≡ [] }
    ensures session { IfOk result (λ _. session.new ≡ spec.next_session session.old command) }
    ensures bytes { IfOk result (λ _. spec.IsAnswer session.old command out.new.items) }
{
    text.clear();
    match command {
        Command::Look(look) => put_look(session, look, text)?,
        Command::Go(go) => put_go(session, go, text, out)?,
        Command::Tell(tell) => put_tell(session, tell, out, text)?,
        Command::NoAcks | Command::Detach => put(text, b"OK")?,
        Command::Kill => return Ok(()),
    }
    push_frame(out, text.as_slice())
}
