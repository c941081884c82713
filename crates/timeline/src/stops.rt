//! Going along a run to an instruction at which it is to stop.
ghost use Rattle.std.specs.Prelude.{Option, if◌then◌else◌, ◌≡◌, ◌==◌, ◌+◌, ◌-◌, ◌<◌, ◌≤◌, IfNone, IfSome, is_some, length, option_and_then, true, unwrap_or};
ghost use Rattle.std.specs.List.{list_any};
ghost use Rattle.timeline.specs.Places.{last_from, last_of};
ghost use Rattle.timeline.specs.Timelines.{hit_back, hit_forth, next_hit, previous_hit, stops_at, touched_at};
ghost use Rattle.timeline.specs.Watches as spec;

use crate::timelines::Timeline;
use crate::watches::{Hit, Watch, hit_by, touched};

// Returns whether the pc is in the list.
fn is_stop(stops: &[u32], pc: u32) -> bool
    ensures { result ≡ list_any (λ at. at == pc) stops.now }
{
    stops.iter().any(|at| *at == pc)
}

// Returns whether there is neither a breakpoint nor a watchpoint.
fn are_none(stops: &[u32], watches: &[Watch]) -> bool
    ensures stops { result ≡ true → length stops.now ≡ 0 }
    ensures watches { result ≡ true → length watches.now ≡ 0 }
{
    stops.is_empty() && watches.is_empty()
}

/// Returns the place if it is one that is looked for, and otherwise what was found before.
pub(crate) fn latest(stop: bool, place: u32, found: Option<u32>) -> Option<u32>
    ensures { result ≡ (if stop then Some place else found) }
{
    if stop { Some(place) } else { found }
}

// Returns the last multiple of the spacing below `end`, or the floor if that is greater.
fn block_begin(floor: u32, end: u32, spacing: u32) -> u32
    requires some { floor < end }
    requires spaced { 1 ≤ spacing }
    ensures low { floor ≤ result }
    ensures high { result < end }
{
    let last = end - 1;
    u32::max(floor, last - last % spacing)
}

impl<'c> Timeline<'c> {
    /// Returns the first of the watchpoints that the next instruction touches.
    pub fn touched(&self, watches: &[Watch]) -> Option<Watch>
        ensures { result ≡ touched_at self.now.case self.now.flip watches.now self.now.place }
    {
        if watches.is_empty() {
            return None;
        }
        touched(watches, self.machine())
    }

    // Returns what stops the run here, by the watchpoint that was touched.
    fn hit_by(&self, touched: Option<Watch>, stops: &[u32]) -> Option<Hit>
        ensures { result ≡ spec.hit_by touched (stops_at self.now.case self.now.flip stops.now self.now.place) }
    {
        hit_by(touched, is_stop(stops, self.machine().pc()))
    }

    // Returns what stops a run that comes back here.
    fn hit_back(&self, stops: &[u32], watches: &[Watch]) -> Option<Hit>
        ensures { result ≡ hit_back self.now.case self.now.flip stops.now watches.now self.now.place }
    {
        if watches.is_empty() {
            return self.hit_by(None, stops);
        }
        self.hit_by(self.touched(watches), stops)
    }

    // Executes an instruction, which leads to this place, and returns what stops the run there.
    fn hit_forth(&mut self, place: u32, stops: &[u32], watches: &[Watch]) -> Option<Hit>
        requires next { place ≡ self.old.place + 1 }
        requires within { place ≤ last_of self.old.case self.old.flip }
        ensures hit { result ≡ hit_forth self.old.case self.old.flip stops.now watches.now place }
        ensures place { self.new ≡ record self.old { place = place } }
    {
        // Without watchpoints a step calls nothing that looks at its instruction.
        if watches.is_empty() {
            self.go_to(place);
            return self.hit_by(None, stops);
        }
        let touched = self.touched(watches);
        self.go_to(place);
        self.hit_by(touched, stops)
    }

    /// Goes on to the first later place at which the pc is one of the stops, or to which an instruction led that
    /// touched one of the watchpoints, and returns which of them stops it: the watchpoint, if both do. If there is
    /// no such place, goes to the last one.
    pub fn go_on_to(&mut self, stops: &[u32], watches: &[Watch]) -> Option<Hit>
        ensures hit { result ≡ option_and_then (hit_forth self.old.case self.old.flip stops.now watches.now)
            (next_hit self.old.case self.old.flip stops.now watches.now self.old.place) }
        ensures place { self.new ≡ record self.old {
          place = unwrap_or (next_hit self.old.case self.old.flip stops.now watches.now self.old.place)
              (last_of self.old.case self.old.flip);
        } }
        ensures end { IfNone result (self.new.place ≡ last_of self.old.case self.old.flip) }
    {
        let from = self.place();
        let last = self.last();
        if are_none(stops, watches) {
            self.go_to(last);
            return None;
        }
        for place in from..last {
            let hit = self.hit_forth(place + 1, stops, watches);
            if hit.is_some() {
                return hit;
            }
        }
        None
    }

    // Returns the last of the places from `begin` to before `end` at which a run that goes back stops.
    fn last_hit(&mut self, stops: &[u32], watches: &[Watch], begin: u32, end: u32) -> Option<u32>
        requires order { begin ≤ end }
        requires within { end ≤ last_of self.old.case self.old.flip }
        ensures found { result ≡ previous_hit self.old.case self.old.flip stops.now watches.now begin end }
        ensures early { IfSome result (λ place. place < end) }
        ensures same { self.new ≡ record self.old { place = self.new.place } }
    {
        let mut found = None;
        for place in begin..end {
            self.go_to(place);
            let hit = self.hit_back(stops, watches);
            found = latest(hit.is_some(), place, found);
        }
        found
    }

    /// Goes back to the last earlier place from `floor` on at which the pc is one of the stops, or whose instruction
    /// touches one of the watchpoints, and returns which of them stops it: the watchpoint, if both do. If there is no
    /// such place, goes to `floor`. Goes along the run from one kept state to the next, the last ones first.
    pub fn go_back_to(&mut self, stops: &[u32], watches: &[Watch], floor: u32) -> Option<Hit>
        requires { floor ≤ self.old.place }
        ensures hit { result ≡ option_and_then (hit_back self.old.case self.old.flip stops.now watches.now)
            (previous_hit self.old.case self.old.flip stops.now watches.now floor self.old.place) }
        ensures place { self.new ≡ record self.old {
          place = unwrap_or (previous_hit self.old.case self.old.flip stops.now watches.now floor self.old.place)
              floor;
        } }
    {
        let mut end = self.place();
        if are_none(stops, watches) {
            self.go_to(floor);
            return None;
        }
        let spacing = self.spacing();
        while end > floor {
            let begin = block_begin(floor, end, spacing);
            if let Some(place) = self.last_hit(stops, watches, begin, end) {
                self.go_to(place);
                return self.hit_back(stops, watches);
            }
            end = begin;
        }
        self.go_to(floor);
        None
    }
}
