//! Instructions that are found by a hash.
ghost use Rattle.std.specs.Prelude.{◌≡◌, fold};
ghost use Rattle.mal_opt.specs.Parts.{fed_arg, fed_args};

use cell_core::{Arg, Cell, Instr, Op};
use std::hash::{Hash, Hasher};
use std::marker::Model;

/// An instruction as a member of a set. Contracts see it as the instruction.
#[derive(Drop)]
pub(crate) struct HashedInstr {
    instr: Instr,
}

impl Model for HashedInstr {
    ghost use Rattle.cell_core.specs.declared.operator.Instr.{Instr};

    ghost Value = { Instr };

    ghost view = { λ t. t.instr };
}

impl HashedInstr {
    /// The instruction as a member of a set.
    pub(crate) fn new(instr: Instr) -> HashedInstr
        ensures { result ≡ instr }
    {
        HashedInstr { instr }
    }

    pub(crate) fn into_instr(self) -> Instr
        ensures { result ≡ self }
    {
        let HashedInstr { instr } = self;
        instr
    }
}

impl PartialEq for HashedInstr {
    ghost use Rattle.std.specs.Cmp;
    ghost use Rattle.cell_core.specs.SameInstr.{same_instr, same_instr_equivalence};

    ghost eq = { same_instr };

    ghost laws = { Cmp.partial_equiv_from_equiv same_instr_equivalence };

    fn eq(&self, other: &HashedInstr) -> bool {
        self.instr == other.instr
    }
}

impl Eq for HashedInstr {
    ghost use Rattle.cell_core.specs.SameInstr.{same_instr_equivalence};

    ghost laws = { same_instr_equivalence };
}

impl Hash for HashedInstr {
    ghost use Rattle.std.specs.Prelude.{◌++◌};
    ghost use Rattle.std.proofs.Common.{ap};
    ghost use Rattle.cell_core.specs.SameInstr.{same_instr_decides};
    ghost use Rattle.mal_opt.specs.Parts.{fed_args};

    ghost hash_input = { λ t. ⟦<Op as Hash>⟧.hash_input t.op ++ fed_args ⟦<Cell as Hash>⟧.hash_input t.args };

    ghost respects_eq = { λ a b e. ap (λ t. ⟦<Op as Hash>⟧.hash_input t.op ++ fed_args ⟦<Cell as Hash>⟧.hash_input t.args) ((same_instr_decides a b).0 e) };

    fn hash<H: Hasher>(&self, state: &mut H) {
        self.instr.op.hash(state);
        feed_args(self.instr.args.as_slice(), state);
    }
}

/// Feeds the arguments to a hasher, one after the other.
fn feed_args<H: Hasher>(args: &[Arg], state: &mut H)
    ensures { state.new ≡ fold H.write state.old (fed_args ⟦<Cell as Hash>⟧.hash_input args.now) }
{
    if let [arg, more @ ..] = args {
        feed_arg(arg, state);
        feed_args(more, state);
    }
}

fn feed_arg<H: Hasher>(arg: &Arg, state: &mut H)
    ensures { state.new ≡ fold H.write state.old (fed_arg ⟦<Cell as Hash>⟧.hash_input arg.now) }
{
    match arg {
        Arg::Const(cell) => {
            state.write_u8(0);
            cell.hash(state);
        }
        Arg::Var(number) => {
            state.write_u8(1);
            number.hash(state);
        }
    }
}
