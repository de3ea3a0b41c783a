ghost use Rattle.std.specs.Prelude.{◌≡◌, ◌↔◌, All, IfOk, true, length, map};
ghost use Rattle.lineage_key.specs.Same.{same_key};
ghost use Rattle.lineage_key.specs.Keys.{IsNumbered, arg_for, key_for};

use cell_core::{Arg, Cell, Instr, Memory, Op, Sequence};
use std::alloc::Global;
use std::hash::{Hash, Hasher};

/// An argument of a key.
#[derive(Hash)]
pub enum KeyArg {
    /// A constant.
    Const(Cell),
    /// The id of the result that is used here, or 0 for a result without id.
    Id(u64),
}

// By a call of its own, so that proofs needn't go through its forms where one is dropped.
impl Drop for KeyArg {
    fn drop(self) {
        match self {
            KeyArg::Const(_) | KeyArg::Id(_) => {}
        }
    }
}

/// The name of an instruction's result: the operator, its arguments with results by their ids, and
/// the version of the column that a bind reads (other operators have version 0).
#[derive(Drop)]
pub struct Key {
    /// The operator.
    pub op: Op,
    /// Its arguments, in order.
    pub args: Sequence<KeyArg>,
    /// The version of the column that is read.
    pub version: u64,
}

impl KeyArg {
    /// An equal argument, which shares the text.
    pub fn share(&self) -> Result<KeyArg, Memory>
        ensures { IfOk result (λ arg. arg ≡ self.now) }
    {
        Ok(match self {
            KeyArg::Const(cell) => KeyArg::Const(cell.share()?),
            KeyArg::Id(id) => KeyArg::Id(*id),
        })
    }
}

impl Key {
    /// An equal key, which shares the texts.
    pub fn share(&self, alloc: Global) -> Result<Key, Memory>
        ensures { IfOk result (λ key. key ≡ self.now) }
    {
        let args = copy_key_args(alloc, self.args.as_slice())?;
        Ok(Key {
            op: self.op,
            args,
            version: self.version,
        })
    }
}

/// Equal arguments, which share their texts.
fn copy_key_args(alloc: Global, args: &[KeyArg]) -> Result<Sequence<KeyArg>, Memory>
    ensures { IfOk result (λ copy. copy ≡ args.now) }
{
    let mut copy = Vec::with_capacity(alloc, args.len())?;
    'arguments: for arg in args {
        copy.push(arg.share()?)?;
    }
    Ok(Sequence::from_vec(copy))
}

impl PartialEq for KeyArg {
    ghost use Rattle.std.specs.Cmp;
    ghost use Rattle.lineage_key.specs.Same.{same_arg, same_arg_equivalence};

    ghost eq = { same_arg };

    ghost laws = { Cmp.partial_equiv_from_equiv same_arg_equivalence };

    fn eq(&self, other: &KeyArg) -> bool {
        match (self, other) {
            (KeyArg::Const(a), KeyArg::Const(b)) => a == b,
            (KeyArg::Id(a), KeyArg::Id(b)) => a == b,
            _ => false,
        }
    }
}

impl Eq for KeyArg {
    ghost use Rattle.lineage_key.specs.Same.{same_arg_equivalence};

    ghost laws = { same_arg_equivalence };
}

impl PartialEq for Key {
    ghost use Rattle.std.specs.Cmp;
    ghost use Rattle.lineage_key.specs.Same.{same_key_equivalence};

    ghost eq = { same_key };

    ghost laws = { Cmp.partial_equiv_from_equiv same_key_equivalence };

    fn eq(&self, other: &Key) -> bool {
        self.op == other.op
            && self.args.as_slice() == other.args.as_slice()
            && self.version == other.version
    }
}

impl Eq for Key {
    ghost use Rattle.lineage_key.specs.Same.{same_key_equivalence};

    ghost laws = { same_key_equivalence };
}

impl Hash for Key {
    ghost use Rattle.std.specs.Prelude.{◌++◌};
    ghost use Rattle.std.specs.Hash as fed;
    ghost use Rattle.std.proofs.Common.{ap};
    ghost use Rattle.lineage_key.specs.Same.{same_key_decides};

    ghost hash_input = { λ key. ⟦<Op as Hash>⟧.hash_input key.op ++ fed.slice ⟦<KeyArg as Hash>⟧.hash_input key.args ++ fed.u64 key.version };

    ghost respects_eq = { λ a b e. ap (λ key. ⟦<Op as Hash>⟧.hash_input key.op ++ fed.slice ⟦<KeyArg as Hash>⟧.hash_input key.args ++ fed.u64 key.version) ((same_key_decides a b).0 e) };

    fn hash<H: Hasher>(&self, state: &mut H) {
        self.op.hash(state);
        self.args.as_slice().hash(state);
        self.version.hash(state);
    }
}

/// Keys are equal exactly where they are the same: operator, arguments (an Int and a Huge of one
/// number differ) and version.
pub fn equal_keys_are_the_same(a: &Key, b: &Key)
    ensures { (same_key a.now b.now ≡ true) ↔ (a.now ≡ b.now) }
{
    let _ = a;
    let _ = b;
}

/// The key of an instruction: each variable is replaced by the id of its result. `ids` has the id
/// of each variable in order, and 0 where its result has none.
pub fn key_of(alloc: Global, instr: &Instr, ids: &[u64], version: u64) -> Result<Key, Memory>
    requires { All (IsNumbered (length ids.now)) instr.now.args }
    ensures { IfOk result (λ key. key ≡ key_for instr.now ids.now version) }
{
    let args = args_of(alloc, instr.args.as_slice(), ids)?;
    Ok(Key {
        op: instr.op,
        args: Sequence::from_vec(args),
        version,
    })
}

/// The arguments of a key.
fn args_of(alloc: Global, args: &[Arg], ids: &[u64]) -> Result<Vec<KeyArg>, Memory>
    requires { All (IsNumbered (length ids.now)) args.now }
    ensures { IfOk result (λ made. made.items ≡ map (arg_for ids.now) args.now) }
{
    let mut made = Vec::with_capacity(alloc, args.len())?;
    'arguments: for arg in args {
        made.push(arg_of(arg, ids)?)?;
    }
    Ok(made)
}

/// One argument of a key.
fn arg_of(arg: &Arg, ids: &[u64]) -> Result<KeyArg, Memory>
    requires { IsNumbered (length ids.now) arg.now }
    ensures { IfOk result (λ made. made ≡ arg_for ids.now arg.now) }
{
    Ok(match arg {
        Arg::Const(cell) => KeyArg::Const(cell.share()?),
        Arg::Var(number) => KeyArg::Id(ids[*number as usize]),
    })
}
