//! Where two runs first differ.
ghost use Rattle.std.specs.Prelude.{◌≡◌, ◌==◌, ◌||◌, ◌+◌, ◌-◌, bytes_eq, not};
ghost use Rattle.timeline.specs.Apart.{apart_at, is_apart, other_output, other_pc};
ghost use Rattle.timeline.specs.Places.{place_from, last_of, state_at};

use crate::timelines::Timeline;

fn either(a: bool, b: bool) -> bool
    ensures { result ≡ (a || b) }
{
    a || b
}

fn other_pc(run: &Timeline, other: &Timeline) -> bool
    ensures { result ≡ other_pc (state_at run.now.case run.now.flip run.now.place) (state_at other.now.case other.now.flip other.now.place) }
{
    run.machine().pc() != other.machine().pc()
}

fn other_output(run: &Timeline, other: &Timeline) -> bool
    ensures { result ≡ other_output (state_at run.now.case run.now.flip run.now.place) (state_at other.now.case other.now.flip other.now.place) }
{
    run.output() != other.output()
}

// Returns whether the two runs differ at their places.
fn is_apart(run: &Timeline, other: &Timeline) -> bool
    ensures { result ≡ is_apart (state_at run.now.case run.now.flip run.now.place) (state_at other.now.case other.now.flip other.now.place) }
{
    either(other_pc(run, other), other_output(run, other))
}

impl<'c> Timeline<'c> {
    /// Returns the first place from `from` on at which this run and another one of the case differ in the pc or in
    /// what they have sent. The other run stands still at its last place. Both are left at any places.
    pub fn first_apart(&mut self, other: &mut Timeline<'c>, from: u32) -> Option<u32>
        requires { other.old.case ≡ self.old.case }
        ensures found { result ≡ place_from (apart_at self.old.case self.old.flip other.old.flip) from (last_of self.old.case self.old.flip + 1 - from) }
        ensures same { self.new ≡ record self.old { place = self.new.place } }
        ensures other { other.new ≡ record other.old { place = other.new.place } }
    {
        self.case().facts();
        let last = self.last();
        let other_last = other.last();
        if from > last {
            return None;
        }
        for place in from..last + 1 {
            self.go_to(place);
            other.go_to(u32::min(place, other_last));
            if is_apart(self, other) {
                return Some(place);
            }
        }
        None
    }
}
