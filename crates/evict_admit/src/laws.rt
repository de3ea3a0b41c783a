ghost use Rattle.evict_admit.specs.Laws.{OneOrder};
ghost use Rattle.evict_admit.specs.Runs.{RunsAreFunctions};

/// The rule by which rows go is a strict total order of rows with different ids, for scores that
/// are fractions, as those of each formula are. So the row that goes next is the least of those
/// that can go, in whatever order they are given.
pub fn one_order()
    ensures { OneOrder }
{}

/// What is given up is a function of the rows, of their scores and of what is wanted:
/// `plan_evictions` lists exactly that. A plan that is enough frees the bytes and the places that
/// are wanted, no row that is left has lost a parent, and each row that goes was free.
pub fn runs_are_functions()
    ensures { RunsAreFunctions }
{}
