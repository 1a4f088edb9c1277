ghost use Rattle.worker_seats.specs.Laws.{HasOneWalkReplay, ShiftsFit, WalkRepliesAreSound};

/// What the workers of a new cache did fits, once the cache is closed.
pub fn shifts_fit()
    ensures { ShiftsFit }
{}

/// Where queries are answered by walks, each reply of an output that fits is sound.
pub fn walk_replies_are_sound()
    ensures { WalkRepliesAreSound }
{}

/// For one worker an input has one output by walks.
pub fn one_walk_replay()
    ensures { HasOneWalkReplay }
{}
