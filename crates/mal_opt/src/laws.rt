//! A law about live instructions. The call computes nothing.
ghost use Rattle.mal_opt.specs.Laws.{AliveLead};

/// The live instructions are exactly those from which a path leads to one that is shown or may
/// overflow: each step of the path leads from an instruction to a later one that uses it.
pub fn alive_instructions_lead()
    ensures { AliveLead }
{}
