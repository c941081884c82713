//! An assertion as a call, for the crates of tests. The time to prove a test grows with the size of its code, and
//! each `assert_eq!` expands to much code.
#![tactic(auto)]

ghost use Rattle.std.specs.Prelude.{◌≡◌, false, true, IfErr, IfOk};

/// Two values that differ but should be equal, with the place in the test.
#[derive(Debug)]
pub struct Differs<K, T> {
    /// What tells this place of a test from the other places.
    pub at: K,
    /// The value that the code under test gave.
    pub found: T,
    /// The expected value.
    pub wanted: T,
}

/// Compares the value found with the expected value; `at` tells this place of the test from the others.
///
/// # Errors
///
/// The place and the two values, if they differ. A test ends with `.expect(rt, ..)`, which prints them.
pub fn same<K: Drop, T: PartialEq + Drop>(at: K, found: T, wanted: T) -> Result<(), Differs<K, T>>
    ensures same { IfOk result (λ _. T.eq found wanted ≡ true) }
    ensures differs { IfErr result (λ _. T.eq found wanted ≡ false) }
{
    if found == wanted {
        Ok(())
    } else {
        Err(Differs { at, found, wanted })
    }
}
