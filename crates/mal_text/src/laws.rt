//! Laws about texts. The calls compute nothing.
ghost use Rattle.mal_text.specs.Laws.{OneReading};

/// No text reads as two plans: it is derived from at most one block, which stands for at most one
/// plan.
pub fn one_reading()
    ensures { OneReading }
{}
