ghost use Rattle.mal_tokens.specs.Laws.{OneList};

/// A text has at most one list of tokens.
pub fn one_list()
    ensures { OneList }
{}
