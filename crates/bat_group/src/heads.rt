//! The groups of a BAT, each with the head of its first pair.
ghost use Rattle.std.specs.Prelude.{◌≡◌, ◌+◌, ◌++◌, ◌<◌, ◌≤◌, ◌^◌, [], ◌∷◌, length, slice_index_or, IfOk, OnOk};
ghost use Rattle.std.specs.List.{zip};
ghost use Rattle.cell_core.specs.declared.cell.Cell.TheVariants.{Nil};
ghost use Rattle.cell_core.specs.Pairs.{Pairs};
ghost use Rattle.cell_core.specs.Groups.{group_heads_of};
ghost use Rattle.chunk_core.specs.Parts.{part_cells};
ghost use Rattle.bat_group.specs.Heads.{AreHeads};

use crate::firsts::{Firsts, cell_at};
use bat_core::{Bat, BatBuilder};
use cell_core::{Cell, Memory};
use chunk_core::Part;
use std::alloc::Global;

/// The groups met so far, and the oid of each beside the head of its first pair.
#[derive(Drop)]
pub(crate) struct Heads {
    /// The groups with their numbers.
    pub firsts: Firsts,
    /// How many groups there are.
    pub count: u64,
    /// Their oids and heads.
    pub out: BatBuilder,
}

/// The oid of each group beside the head of its first pair.
pub(crate) fn first_heads(alloc: Global, g: &Bat) -> Result<Bat, Memory>
    ensures { IfOk result (λ out. out ≡ group_heads_of g.now) }
{
    let met = all_heads(alloc, g)?;
    met.out.finish(alloc)
}

/// Meets all groups.
fn all_heads(alloc: Global, g: &Bat) -> Result<Heads, Memory>
    ensures { IfOk result (λ met. AreHeads met g.now) }
{
    let mut met = Heads {
        firsts: Firsts::Oids,
        count: 0,
        out: BatBuilder::new(alloc),
    };
    let mut from = 0;
    'runs: while from < g.len() {
        let (heads, tails) = g.run(from);
        met.meet_part(alloc, heads, tails)?;
        from += heads.len() as u64;
    }
    Ok(met)
}

impl Heads {
    /// Meets the groups of a part. Those that are oids have a loop of their own, without a test of
    /// their form for each.
    fn meet_part(&mut self, alloc: Global, heads: Part<'_>, tails: Part<'_>) -> Result<(), Memory>
        requires even { length (part_cells tails) ≡ length (part_cells heads) }
        requires few { self.old.count + length (part_cells heads) ≤ 2 ^ 60 }
        ensures few { OnOk result (self.new.count ≤ self.old.count + length (part_cells heads.entry)) }
        ensures met { OnOk result ((before : Pairs) → AreHeads self.old before → AreHeads self.new (before ++ zip (part_cells heads.entry) (part_cells tails.entry))) }
    {
        match tails {
            Part::Oids(oids) => self.meet_each(alloc, heads, Part::Oids(oids)),
            tails => self.meet_each(alloc, heads, tails),
        }
    }

    /// Meets the groups of a part, one after another.
    #[inline(always)]
    fn meet_each(&mut self, alloc: Global, heads: Part<'_>, tails: Part<'_>) -> Result<(), Memory>
        requires even { length (part_cells tails) ≡ length (part_cells heads) }
        requires few { self.old.count + length (part_cells heads) ≤ 2 ^ 60 }
        ensures few { OnOk result (self.new.count ≤ self.old.count + length (part_cells heads.entry)) }
        ensures met { OnOk result ((before : Pairs) → AreHeads self.old before → AreHeads self.new (before ++ zip (part_cells heads.entry) (part_cells tails.entry))) }
    {
        for i in 0..heads.len() {
            self.meet(alloc, heads, tails, i)?;
        }
        Ok(())
    }

    /// Meets the group at a place.
    #[inline(always)]
    fn meet(
        &mut self,
        alloc: Global,
        heads: Part<'_>,
        tails: Part<'_>,
        at: usize,
    ) -> Result<(), Memory>
        requires head { at < length (part_cells heads) }
        requires tail { at < length (part_cells tails) }
        requires few { self.old.count < 2 ^ 60 }
        ensures few { OnOk result (self.new.count ≤ self.old.count + 1) }
        ensures met { OnOk result ((before : Pairs) → AreHeads self.old before → AreHeads self.new (before ++ (slice_index_or (part_cells heads.entry) at Nil, slice_index_or (part_cells tails.entry) at Nil) ∷ [])) }
    {
        if self.firsts.has_met(self.count, tails, at) {
            return Ok(());
        }
        self.meet_other(alloc, heads, tails, at)
    }

    /// Meets the group at a place. If it is a new one, the head there is its first.
    #[inline(never)]
    fn meet_other(
        &mut self,
        alloc: Global,
        heads: Part<'_>,
        tails: Part<'_>,
        at: usize,
    ) -> Result<(), Memory>
        requires head { at < length (part_cells heads) }
        requires tail { at < length (part_cells tails) }
        requires few { self.old.count < 2 ^ 60 }
        ensures few { OnOk result (self.new.count ≤ self.old.count + 1) }
        ensures met { OnOk result ((before : Pairs) → AreHeads self.old before → AreHeads self.new (before ++ (slice_index_or (part_cells heads.entry) at Nil, slice_index_or (part_cells tails.entry) at Nil) ∷ [])) }
    {
        let known = self.count;
        let number = self.firsts.number_at(alloc, &mut self.count, tails, at)?;
        if number != known {
            return Ok(());
        }
        self.out
            .append(alloc, Cell::Oid(number), cell_at(heads, at)?)
    }
}
