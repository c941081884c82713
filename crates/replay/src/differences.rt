//! The first instruction at which an injected run differs from the golden run.
ghost use Rattle.std.specs.Prelude.{◌≡◌, ◌==◌, bytes_eq, not, [], None};
ghost use Rattle.replay.specs.Walk.{seen, send_same};

use fs_model::Event;
use rv_machine::Machine;

/// For the pc, the registers and the output: the number of the first instruction before which the two runs differ.
#[derive(Clone, Copy)]
pub(crate) struct Differences {
    pub(crate) pc: Option<u32>,
    pub(crate) registers: Option<u32>,
    pub(crate) output: Option<u32>,
}

// Returns the first difference after one more comparison.
fn seen(before: Option<u32>, number: u32, differs: bool) -> Option<u32>
    ensures { result ≡ seen before number differs }
{
    match before {
        Some(first) => Some(first),
        None => { if differs { Some(number) } else { None } }
    }
}

fn other_registers(machine: &Machine, golden: &Machine) -> bool
    ensures { result ≡ not (bytes_eq machine.now.core.regs golden.now.core.regs) }
{
    machine.registers() != golden.registers()
}

/// Returns whether both steps send the same bytes.
pub(crate) fn send_same(a: Event, b: Event) -> bool
    ensures { result ≡ send_same a b }
{
    match (a, b) {
        (Event::Out(x), Event::Out(y)) => x == y,
        (Event::Out(_), _) => false,
        (_, Event::Out(_)) => false,
        _ => true,
    }
}

impl Differences {
    /// Returns the differences before the first comparison.
    pub(crate) fn none() -> Differences
        ensures { result ≡ record { pc = None; registers = None; output = None } }
    {
        Differences {
            pc: None,
            registers: None,
            output: None,
        }
    }

    /// Returns the differences after a comparison of the states before the instruction with this number.
    /// `sent_same` tells whether both runs have sent the same bytes.
    pub(crate) fn with(
        self,
        number: u32,
        machine: &Machine,
        golden: &Machine,
        sent_same: bool,
    ) -> Differences
        ensures pc { result.pc ≡ seen self.pc number (not (machine.now.core.pc == golden.now.core.pc)) }
        ensures registers { result.registers ≡ seen self.registers number (not (bytes_eq machine.now.core.regs golden.now.core.regs)) }
        ensures output { result.output ≡ seen self.output number (not sent_same) }
    {
        Differences {
            pc: seen(self.pc, number, machine.pc() != golden.pc()),
            registers: seen(self.registers, number, other_registers(machine, golden)),
            output: seen(self.output, number, !sent_same),
        }
    }
}
