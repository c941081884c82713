//! The distance between stored states of the golden run.
ghost use Rattle.std.specs.Prelude.{◌≡◌, ◌+◌, ◌/◌, max};

// The least distance between stored states, in cycles,
const LEAST_SPACING: u32 = 256;

// and the most states.
const MOST_STATES: u32 = 256;

/// Returns the distance between stored states for a run of this length, in a campaign and in an audit of it.
pub fn spacing_of(instructions: u32) -> u32
    ensures { result ≡ max 256 (instructions / 256 + 1) }
{
    LEAST_SPACING.max(instructions / MOST_STATES + 1)
}
