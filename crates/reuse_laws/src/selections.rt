//! What selections are when they are computed from other selections.
ghost use Rattle.reuse_laws.specs.Laws.{BoundsAreSpans, CuttingsServe, PiecesServe, SelectionsAcross, SelectionsWithin};

/// A selection by four bounds keeps exactly what lies in the span of these bounds, and a span that
/// some selection asks for has its bounds.
pub fn bounds_are_spans()
    ensures { BoundsAreSpans }
{}

/// A selection from a selection whose span contains its own is the plain selection.
pub fn selections_within()
    ensures { SelectionsWithin }
{}

/// Selections of pieces that follow each other through a target, each from a selection that contains
/// it, merged by heads that rise, are the plain selection. Pieces that cut up the target are such, and
/// so those of a greedy cutting.
pub fn selections_across()
    ensures across { SelectionsAcross }
    ensures pieces { PiecesServe }
    ensures cuttings { CuttingsServe }
{}
