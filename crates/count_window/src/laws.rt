//! What follows from the definitions of windows alone.
ghost use Rattle.count_window.specs.Laws.{AnswersFollowFromCounts};

/// Windows that have admitted the same counts answer alike, and go on so, in whatever order and with
/// whatever refusals between the counts came.
pub fn answers_follow_from_counts()
    ensures { AnswersFollowFromCounts }
{}
