//! The lists of breakpoints and of watchpoints.
ghost use Rattle.std.specs.Prelude.{◌≡◌, ◌<◌, ◌==◌, IfSome, length, position};
ghost use Rattle.debug_session.specs.Session as spec;

use timeline::{Watch, WatchKind};

// Returns the place of an address in the list.
fn place_of(stops: &[u32], address: u32) -> Option<usize>
    ensures value { result ≡ position (λ stop. stop == address) stops.now }
    ensures within { IfSome result (λ n. n < length stops.now) }
{
    stops.iter().position(|stop| *stop == address)
}

// Removes an address from the list, which has it once at most.
pub(crate) fn without(stops: &mut Vec<u32>, address: u32)
    ensures { stops.new.items ≡ spec.without_stop stops.old.items address }
{
    match place_of(stops.as_slice(), address) {
        Some(place) => {
            let _ = stops.remove(place);
        }
        None => {}
    }
}

fn is_same_kind(a: WatchKind, b: WatchKind) -> bool
    ensures { result ≡ spec.is_same_kind a b }
{
    match (a, b) {
        (WatchKind::Write, WatchKind::Write)
        | (WatchKind::Read, WatchKind::Read)
        | (WatchKind::Access, WatchKind::Access) => true,
        _ => false,
    }
}

fn is_same_watch(a: &Watch, b: &Watch) -> bool
    ensures { result ≡ spec.is_same_watch a.now b.now }
{
    is_same_kind(a.kind, b.kind) && a.address == b.address && a.length == b.length
}

pub(crate) fn has_watch(watches: &[Watch], wanted: &Watch) -> bool
    ensures { result ≡ spec.has_watch watches.now wanted.now }
{
    watches.iter().any(|watch| is_same_watch(watch, wanted))
}

// Returns the place of a watchpoint in the list.
fn place_of_watch(watches: &[Watch], wanted: &Watch) -> Option<usize>
    ensures value { result ≡ position (λ watch. spec.is_same_watch watch wanted.now) watches.now }
    ensures within { IfSome result (λ n. n < length watches.now) }
{
    watches
        .iter()
        .position(|watch| is_same_watch(watch, wanted))
}

// Removes a watchpoint from the list, which has it once at most.
pub(crate) fn without_watch(watches: &mut Vec<Watch>, unwanted: &Watch)
    ensures { watches.new.items ≡ spec.without_watch watches.old.items unwanted.now }
{
    match place_of_watch(watches.as_slice(), unwanted) {
        Some(place) => {
            let _ = watches.remove(place);
        }
        None => {}
    }
}
