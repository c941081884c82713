//! What a packet asks.

use timeline::Watch;

/// Which run is shown.
#[derive(Clone, Copy)]
pub enum Shown {
    /// The run with the flip.
    Injected,
    /// The run without one.
    Golden,
}

/// A request that has the same answer whatever the state.
#[derive(Clone, Copy)]
pub enum Fixed {
    /// `?`: why the run stands still.
    WhyStopped,
    /// Something that needs no action, such as the choice of the only thread, or `vKill` before `vRun`.
    Accepted,
    /// A write to a register, to memory or to the pc.
    Refused,
    /// A packet whose numbers are missing or too large, or name a thread that does not exist.
    Malformed,
    /// `qSupported`.
    Supported,
    /// `vCont?`.
    Actions,
    /// `qC`: the current thread.
    CurrentThread,
    /// `qfThreadInfo`: the first threads, and `qsThreadInfo`: the other ones.
    FirstThreads,
    OtherThreads,
    /// `qAttached`.
    Attached,
    /// A packet that is not known.
    Unknown,
}

/// A question about the state.
#[derive(Clone, Copy)]
pub enum Look {
    Fixed(Fixed),
    /// The registers x0 to x31 and the pc.
    Registers,
    /// A register by its number; the pc has number 32.
    Register(u32),
    /// This number of bytes from an address on.
    Memory(u32, u32),
    /// A part of the description of the target: where it begins, and its most bytes.
    Features(u32, u32),
}

/// A request to go to another place of the run.
#[derive(Clone, Copy)]
pub enum Go {
    Step,
    Continue,
    StepBack,
    ContinueBack,
    /// `vRun`: to the place where a session begins.
    Restart,
    /// To the state after this number of instructions.
    To(u32),
    /// To the first place at which the two runs differ in the pc or the output.
    First,
    /// To the same place of one of the runs.
    Show(Shown),
    /// A breakpoint at an address, from now on or no longer.
    Insert(u32),
    Remove(u32),
    /// A watchpoint, from now on or no longer.
    Watch(Watch),
    Unwatch(Watch),
}

/// What a person is told of the monitor commands.
#[derive(Clone, Copy)]
pub enum Advice {
    /// Which there are.
    Commands,
    /// That there is no such command.
    NoCommand,
    /// That `goto` takes a number.
    NoNumber,
    /// That `last-write` takes a register.
    NoRegister,
}

/// A question of a person, which is answered in words.
#[derive(Clone, Copy)]
pub enum Tell {
    Site,
    /// In what the two runs differ here.
    Differences,
    /// What the two runs have sent.
    Output,
    /// Which instruction wrote this register last, in both runs.
    LastWrite(u32),
    Advice(Advice),
}

/// What a packet asks.
#[derive(Clone, Copy)]
pub enum Command {
    Look(Look),
    Go(Go),
    Tell(Tell),
    /// Answers are no longer acknowledged.
    NoAcks,
    Detach,
    Kill,
}
