//! An injected run to its end, from the first instruction.

ghost use Rattle.std.specs.Prelude.{◌≡◌, ℕ, ◌+◌, ◌-◌, ◌<◌, ◌≤◌, length, take};
ghost use Rattle.fs_model.specs.Cell.{IsCell, bits};
ghost use Rattle.fs_model.specs.Run.{Ended, Halt, ending, injected};
ghost use Rattle.fs_model.specs.Outcome.{compare, outcome};
ghost use Rattle.golden_trace.specs.Goldens.{IsGolden};
ghost use Rattle.outcome_class.specs.Seen.{watching, going};
ghost use Rattle.snapshot_store.specs.Along.{Rose};
ghost use Rattle.experiment.specs.Steps.{begun, steps_of};

use fs_model::{Case, Outcome, Site};
use golden_trace::Golden;
use outcome_class::Watch;
use rv_machine::Machine;
use snapshot_store::advance;

/// Returns the watch over a run that has sent the first `sent` golden bytes.
pub(crate) fn watch_after(golden: &Golden, sent: usize) -> Watch<'_>
    requires { sent ≤ length golden.now.output }
    ensures { result ≡ watching golden.now.exit golden.now.output (going (take sent golden.now.output)) }
{
    let mut watch = Watch::new(golden.exit(), golden.output());
    watch.restart_at(sent);
    watch
}

// Continues for at most `steps` steps a run that has sent the first `sent` golden bytes, and returns the outcome.
// The machine stops for the watch only if a byte is sent or the run ends.
fn run_on(golden: &Golden, machine: &mut Machine, sent: usize, steps: u32) -> Outcome
    requires { sent ≤ length golden.now.output }
    ensures outcome { (n : ℕ) → result ≡ compare (Ended (Halt golden.now.exit) n golden.now.output)
        (ending machine.old.case steps (begun machine.old.core golden.now.output sent)) }
    ensures taken { Rose machine.old.taken (steps_of steps (ending machine.old.case steps (begun machine.old.core golden.now.output sent))) machine.new.taken }
    ensures case { machine.new.case ≡ machine.old.case }
{
    // This call gives the proof the bound of the count.
    let _ = machine.taken();
    let mut watch = watch_after(golden, sent);
    let mut left = steps as u64;
    while left > 0 {
        let (event, taken) = machine.run(left);
        left -= taken;
        watch.see(event);
        if !event.goes_on() {
            return watch.outcome();
        }
    }
    watch.outcome()
}

/// Returns the outcome of a site by a run of its own: from the first instruction to the site's cycle, where the
/// bit is flipped, and then until it ends or has taken the case's limit of instructions, counted from the first
/// one. The machine may be in any state of the case, and its count of steps rises by those of the run.
pub fn run_site_plain(case: &Case, golden: &Golden, machine: &mut Machine, site: &Site) -> Outcome
    requires golden { IsGolden case.now golden.now }
    requires machine { machine.old.case ≡ case.now }
    requires cycle { site.now.cycle < length golden.now.touches }
    requires cell { IsCell case.now site.now.cell }
    requires bit { site.now.bit < bits site.now.cell }
    ensures outcome { result ≡ outcome case.now site.now }
    ensures taken { Rose machine.old.taken (site.now.cycle + steps_of (case.now.limit - site.now.cycle) (injected case.now site.now)) machine.new.taken }
    ensures case { machine.new.case ≡ machine.old.case }
{
    machine.rewind();
    let sent = advance(machine, 0, 0, site.cycle);
    machine.flip(site.cell, site.bit);
    run_on(golden, machine, sent, case.limit() - site.cycle)
}
