//! The talk with GDB: bytes in, bytes out.
ghost use Rattle.std.specs.Prelude.{◌≡◌, ◌∷◌, ◌++◌, [], IfOk, Some, if◌then◌else◌};
ghost use Rattle.timeline.specs.Places.{IsFlip};
ghost use Rattle.debugger.specs.Talk as spec;

use debug_session::{Command, Session, SiteFacts, answer, command_in};
use fs_model::{Case, NoMemory, Site};
use gdb_packets::{Heard, Reader, push_unescaped};
use std::alloc::Global;
use std::marker::Model;

/// A talk: what was read, where the session stands, and whether packets are acknowledged.
#[derive(Drop)]
pub(crate) struct Talk<'c> {
    alloc: Global,
    reader: Reader,
    session: Session<'c>,
    acks: bool,
    over: bool,
    /// The bytes of the last answer.
    last: Vec<u8>,
    /// Buffers for the data of a packet, and for that of its answer.
    asked: Vec<u8>,
    text: Vec<u8>,
}

impl<'c> Model for Talk<'c> {
    ghost use Rattle.debugger.specs.Talk.{TalkData};

    ghost Value = { TalkData };

    ghost view = { λ t. record { reader = t.reader; session = t.session; acks = t.acks; over = t.over; last = t.last.items } };
}

fn acks_after(command: Command, acks: bool) -> bool
    ensures { result ≡ spec.acks_after command acks }
{
    match command {
        Command::NoAcks => false,
        Command::Look(_) | Command::Go(_) | Command::Tell(_) | Command::Detach | Command::Kill => {
            acks
        }
    }
}

fn over_after(command: Command, over: bool) -> bool
    ensures { result ≡ spec.over_after command over }
{
    match command {
        Command::Detach | Command::Kill => true,
        Command::Look(_) | Command::Go(_) | Command::Tell(_) | Command::NoAcks => over,
    }
}

// Appends a byte, if packets are acknowledged.
fn acknowledge(acks: bool, byte: u8, out: &mut Vec<u8>) -> Result<(), NoMemory>
    ensures { IfOk result (λ _. out.new.items ≡ out.old.items ++ (if acks then byte ∷ [] else [])) }
{
    if acks {
        out.push(byte)?;
    }
    Ok(())
}

// Appends the bytes of the last answer, if packets are acknowledged.
fn repeat(acks: bool, last: &[u8], out: &mut Vec<u8>) -> Result<(), NoMemory>
    ensures { IfOk result (λ _. out.new.items ≡ out.old.items ++ (if acks then last.now else [])) }
{
    if acks {
        out.extend_from_slice(last)?;
    }
    Ok(())
}

impl<'c> Talk<'c> {
    /// Returns the talk about a site before its first byte.
    ///
    /// # Errors
    ///
    /// `NoMemory` if memory is refused.
    pub(crate) fn begin(
        alloc: Global,
        case: &'c Case,
        site: Site,
        facts: SiteFacts,
    ) -> Result<Talk<'c>, NoMemory>
        requires { IsFlip case.now (Some site) }
        ensures { IfOk result (λ t. t ≡ spec.talk_begun case.now site facts) }
    {
        Ok(Talk {
            alloc,
            reader: Reader::new(alloc)?,
            session: Session::new(alloc, case, site, facts)?,
            acks: true,
            over: false,
            last: Vec::new(alloc),
            asked: Vec::new(alloc),
            text: Vec::new(alloc),
        })
    }

    /// Returns whether GDB has left.
    pub(crate) fn over(&self) -> bool
        ensures { result ≡ self.now.over }
    {
        self.over
    }

    // Answers the packet that was read.
    fn answer(&mut self, out: &mut Vec<u8>) -> Result<(), NoMemory>
        requires { out.old.items ≡ [] }
        ensures reader { IfOk result (λ _. self.new.reader ≡ self.old.reader) }
        ensures told { IfOk result (λ _. spec.Answers self.old self.new (spec.command_asked self.old.reader) out.new.items) }
    {
        self.asked.clear();
        push_unescaped(&mut self.asked, self.reader.data())?;
        let command = command_in(self.alloc, self.asked.as_slice())?;
        self.last.clear();
        answer(&mut self.session, command, &mut self.text, &mut self.last)?;
        acknowledge(self.acks, b'+', out)?;
        out.extend_from_slice(self.last.as_slice())?;
        self.acks = acks_after(command, self.acks);
        self.over = over_after(command, self.over);
        Ok(())
    }

    /// Takes a byte, and puts the bytes to write.
    ///
    /// # Errors
    ///
    /// `NoMemory` if memory is refused.
    pub(crate) fn hear(&mut self, byte: u8, out: &mut Vec<u8>) -> Result<(), NoMemory>
        ensures { IfOk result (λ _. spec.Hears self.old byte self.new out.new.items) }
    {
        out.clear();
        match self.reader.feed(byte)? {
            Heard::Packet => self.answer(out),
            Heard::Broken => acknowledge(self.acks, b'-', out),
            Heard::Again => repeat(self.acks, self.last.as_slice(), out),
            Heard::Nothing | Heard::Interrupt => Ok(()),
        }
    }
}
