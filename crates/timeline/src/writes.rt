//! Which instruction wrote a register last.
ghost use Rattle.std.specs.Prelude.{◌≡◌, ◌<◌, IfSome};
ghost use Rattle.fs_model.specs.Machine.{instr_at};
ghost use Rattle.timeline.specs.Places.{state_at};
ghost use Rattle.timeline.specs.Writes.{has_rd, last_write, writes_next};

use crate::stops::latest;
use crate::timelines::Timeline;
use rv_decode::decode;
use rv_machine::Machine;

// Returns whether the next instruction has this rd.
fn has_rd(machine: &Machine, register: u32) -> bool
    ensures { result ≡ has_rd (instr_at machine.now.case machine.now.core) register }
{
    let Some(word) = machine.word() else {
        return false;
    };
    match decode(word) {
        Some(instr) => instr.rd as u32 == register,
        None => false,
    }
}

impl<'c> Timeline<'c> {
    // Returns whether the next instruction writes the register.
    fn writes_next(&self, register: u32) -> bool
        ensures { result ≡ writes_next self.now.case (state_at self.now.case self.now.flip self.now.place) register }
    {
        register != 0 && has_rd(self.machine(), register)
    }

    /// Returns the last of the instructions before this place that wrote the register, by the number of
    /// instructions before it. Goes along the run from its beginning.
    pub fn last_write(&mut self, register: u32) -> Option<u32>
        ensures found { result ≡ last_write self.old.case self.old.flip register self.old.place }
        ensures early { IfSome result (λ n. n < self.old.place) }
        ensures same { self.new ≡ self.old }
    {
        let end = self.place();
        let mut found = None;
        for place in 0..end {
            self.go_to(place);
            found = latest(self.writes_next(register), place, found);
        }
        self.go_to(end);
        found
    }
}
