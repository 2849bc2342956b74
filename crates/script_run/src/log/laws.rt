//! Laws of a log that stands: functions without a body, whose contracts are the laws; code uses them by calls.

ghost use Rattle.script_run.specs.Laws.{PollsGoOn, ResultsGoOn, LossesGoOn, OpeningsGoOn, FeedsGoOn, GivesGoOn, LoadsGoOn, NothingStands, StandingSays};

/// Each poll of a client goes on with the log, where commands that end are counted.
pub fn polls_go_on()
    ensures { PollsGoOn }
{}

/// The result of a call that is out, as the servers of the script gave it, goes on with the log, after what was lost just before it.
pub fn results_go_on()
    ensures { ResultsGoOn }
{}

/// What a server loses goes on with the log.
pub fn losses_go_on()
    ensures { LossesGoOn }
{}

/// Where a client is opened, the same log stands.
pub fn openings_go_on()
    ensures { OpeningsGoOn }
{}

/// A piece of a client's bytes is the log's next entry.
pub fn feeds_go_on()
    ensures { FeedsGoOn }
{}

/// Output that a client is given goes on with the log.
pub fn gives_go_on()
    ensures { GivesGoOn }
{}

/// Where a tree is loaded, the same log stands by the trees with that one for commands to come.
pub fn loads_go_on()
    ensures { LoadsGoOn }
{}

/// The empty log stands where nothing has happened yet.
pub fn nothing_stands()
    ensures { NothingStands }
{}

/// What a log that stands says: it follows, and all is counted; where the trees are covered it is fresh.
pub fn standing_says()
    ensures { StandingSays }
{}
