//! What a worker needs for its runs.

ghost use Rattle.std.specs.Prelude.{◌≡◌, IfOk};

use crate::kept::Kept;
use fs_model::{Case, NoMemory};
use rv_machine::Machine;
use std::alloc::Global;
use std::marker::Model;

/// A machine of a case, the bytes that its last run sent, and states that its runs had.
#[derive(Drop)]
pub struct Runner<'a> {
    pub(crate) machine: Machine<'a>,
    pub(crate) output: Vec<u8>,
    pub(crate) kept: Kept<'a>,
}

impl<'a> Model for Runner<'a> {
    ghost use Rattle.std.specs.Prelude.{◌≡◌};
    ghost use Rattle.fs_model.specs.Case.{CaseData};
    ghost use Rattle.run_answers.specs.Kept.{IsKeptOf};

    ghost Value = { CaseData };

    ghost view = { λ r. r.machine.case };

    ghost invariant = { λ r. IsKeptOf r.machine.case r.kept };
}

impl<'a> Runner<'a> {
    /// Takes the memory for runs of a case, of which `machine` is a machine.
    ///
    /// # Errors
    ///
    /// `NoMemory` if memory is refused.
    pub fn new(alloc: Global, case: &'a Case, machine: &Machine<'a>) -> Result<Runner<'a>, NoMemory>
        requires { machine.now.case ≡ case.now }
        ensures { IfOk result (λ runner. runner ≡ case.now) }
    {
        let own = machine.another(alloc)?;
        let Ok(kept) = Kept::new(alloc, case, machine) else {
            drop(own);
            return Err(NoMemory);
        };
        Ok(Runner {
            machine: own,
            output: Vec::new(alloc),
            kept,
        })
    }
}
