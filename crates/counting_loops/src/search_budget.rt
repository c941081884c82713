//! Which searches for loops are worth their time. No contract depends on it.

// The steps of searches of one kind that are paid for at the beginning.
const FIRST_CREDIT: u32 = 8_192;

// The most steps that are paid for.
const MOST_CREDIT: u32 = 1 << 26;

// If a kind of search is not paid for, one in this number is tried.
const RARE: u32 = 64;

/// The kinds of searches: one for each stage, and one for several rounds.
pub(crate) const KINDS: usize = 4;

/// How many steps the next searches of each kind may take. A search takes its steps from the credit of its kind, and
/// half of the steps that a found loop saves are added. So the searches of a kind take less time than the loops that
/// they find save, whatever searches of another kind find.
#[derive(Clone, Copy, Debug)]
pub(crate) struct SearchBudget {
    credit: [u32; KINDS],
    // How often each kind of search was asked for.
    asked: [u32; KINDS],
}

impl SearchBudget {
    /// Begins with a credit for a few searches of each kind.
    pub(crate) fn new() -> SearchBudget {
        SearchBudget {
            credit: [FIRST_CREDIT; KINDS],
            asked: [0; KINDS],
        }
    }

    /// Returns whether the next search of this kind is worth the steps that it takes.
    pub(crate) fn is_worth(&mut self, kind: usize, steps: u32) -> bool {
        let asked = self.asked[kind % KINDS].wrapping_add(1);
        self.asked[kind % KINDS] = asked;
        self.credit[kind % KINDS] >= steps || asked % RARE == 0
    }

    /// Takes the steps of a search from the credit of its kind.
    pub(crate) fn spend(&mut self, kind: usize, steps: u32) {
        self.credit[kind % KINDS] = self.credit[kind % KINDS].saturating_sub(steps);
    }

    /// Adds half of the steps that a loop saves to the credit of the kind that found it.
    pub(crate) fn earn(&mut self, kind: usize, saved: u32) {
        let more = self.credit[kind % KINDS].saturating_add(saved / 2);
        self.credit[kind % KINDS] = u32::min(more, MOST_CREDIT);
    }
}
