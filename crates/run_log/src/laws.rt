//! Laws about the fold of a log. The calls compute nothing.
ghost use Rattle.run_log.specs.Laws.{LogsTell, StepsKeep};

/// An empty log leads to a sound state, and so does each event that may follow; the worth of an id
/// never changes.
pub fn steps_keep()
    ensures { StepsKeep }
{}

/// A log leads to the tables of its accepted changes. Where a column has a version, its cells are
/// those that it had after the event at that position.
pub fn logs_tell()
    ensures { LogsTell }
{}
