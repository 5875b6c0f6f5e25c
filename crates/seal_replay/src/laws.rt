ghost use Rattle.seal_replay.specs.Laws.{ReplayFollowsRun, UnstoppedEnds};

/// A seal that begins where a run is and replays without a stop does what the run does.
pub fn replay_follows_run()
    ensures { ReplayFollowsRun }
{}

/// A replay without a stop has an end.
pub fn unstopped_ends()
    ensures { UnstoppedEnds }
{}
