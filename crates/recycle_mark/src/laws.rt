//! Laws about the results that are BATs and those that are marked. The calls compute nothing.
ghost use Rattle.recycle_mark.specs.Laws.{BatsAreTyped, MarksAreByPlace};

/// In a plan whose instructions have types, the results that count as BATs are exactly those whose
/// type is that of a BAT.
pub fn bats_are_typed()
    ensures { BatsAreTyped }
{}

/// A bind that names no variable is marked, and each instruction exactly where it gives a BAT and each
/// variable that it names is that of an earlier marked one.
pub fn marks_are_by_place()
    ensures { MarksAreByPlace }
{}
