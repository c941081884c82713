//! Laws about merging, each the contract of a call that does nothing.

ghost use Rattle.shard_merge.specs.Laws.{Commutes, Associates, Repeats, StaysRight, UnionCounts, OrderIsFree, SoundIsRight};

/// The union of boards, as maps from jobs to outcomes.
pub fn union()
    ensures commutes { Commutes }
    ensures associates { Associates }
    ensures repeats { Repeats }
    ensures right { StaysRight }
    ensures counts { UnionCounts }
    ensures order { OrderIsFree }
{}

/// The board that a sound file gives is right.
pub fn sound_board()
    ensures { SoundIsRight }
{}
