ghost use Rattle.std.specs.Prelude.{ℕ, List};
ghost use Rattle.cell_core.specs.declared.cut.Span.{Span};
ghost use Rattle.least_cover.specs.Chosen.{CheapestCutsUp, ChosenIsFunction};
ghost use Rattle.least_cover.specs.Covers.{IsCertificate, IsLeastCost, OneChosen, Priced};

/// The numbers of a certificate show that no cover costs less.
pub fn certificates_bound()
    ensures { (spans : List Priced) (target : Span) (cost : ℕ) (labels : List ℕ)
        → IsCertificate spans target cost labels → IsLeastCost spans target cost }
{}

/// A chain through a target that isn't empty is a cover; the chosen chain costs no more than any
/// other; and no two chains are chosen from one cut on.
pub fn one_chosen()
    ensures { (spans : List Priced) (target : Span) → OneChosen spans target }
{}

/// The chosen chain is a function of the spans, which lists all chains and takes the least. It
/// returns none where the target isn't covered, and nowhere else.
pub fn chosen_is_function()
    ensures { ChosenIsFunction }
{}

/// The pieces of the cheapest cover follow each other through the target, each from the selection
/// of its id; there are none exactly where the selections don't cover the target.
pub fn cheapest_cuts_up()
    ensures { CheapestCutsUp }
{}
