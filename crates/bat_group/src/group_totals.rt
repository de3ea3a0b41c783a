//! The groups of a column, each with the total of the cells beside it.
ghost use Rattle.std.specs.Prelude.{◌≡◌, ◌+◌, ◌++◌, ◌==◌, ◌<◌, ◌≤◌, ◌^◌, [], ◌∷◌, length, map, take, slice_index_or, if◌then◌else◌, List, IfOk, OnOk};
ghost use Rattle.std.specs.List.{position_or_len};
ghost use Rattle.cell_core.specs.declared.cell.Cell.{Cell as CellSeen};
ghost use Rattle.cell_core.specs.declared.cell.Cell.TheVariants.{Nil, Int, Oid};
ghost use Rattle.cell_core.specs.Same.{same_cell};
ghost use Rattle.cell_core.specs.Groups.{distinct};
ghost use Rattle.cell_calc.specs.Aggregates.{aggregate_of};
ghost use Rattle.chunk_core.specs.Parts.{part_cells};
ghost use Rattle.bat_group.specs.Members.{members_of};
ghost use Rattle.bat_group.specs.Totals.{AreTotals};

use crate::both::run_of_both;
use crate::firsts::Firsts;
use crate::parts::add_at;
use bat_core::Cells;
use cell_calc::Aggregate;
use cell_core::{Cell, Memory};
use chunk_core::Part;
use std::alloc::Global;

/// The groups met so far, and the total of each in the order of their numbers.
#[derive(Drop)]
pub(crate) struct GroupTotals {
    /// The groups with their numbers.
    pub firsts: Firsts,
    /// How many groups there are.
    pub count: u64,
    /// Their totals.
    pub totals: Vec<Cell>,
}

/// The aggregate over the cells beside each group, in the order of the groups' numbers.
pub(crate) fn group_totals(
    alloc: Global,
    aggregate: Aggregate,
    cells: &Cells,
    groups: &Cells,
) -> Result<Vec<Cell>, Memory>
    ensures { IfOk result (λ out. out.items ≡ map (λ group. aggregate_of aggregate (members_of cells.now groups.now group)) (distinct same_cell groups.now)) }
{
    let both = cells.len().min(groups.len());
    let mut met = total_pairs(alloc, aggregate, cells, groups, both)?;
    met.meet_from(alloc, aggregate, groups, both)?;
    Ok(met.totals)
}

/// The groups at the first places, each with the total of the cells beside it there.
fn total_pairs(
    alloc: Global,
    aggregate: Aggregate,
    cells: &Cells,
    groups: &Cells,
    both: u64,
) -> Result<GroupTotals, Memory>
    requires cells { both ≤ length cells.now }
    requires groups { both ≤ length groups.now }
    requires few { both < 2 ^ 60 }
    ensures few { IfOk result (λ met. met.count ≤ both) }
    ensures totals { IfOk result (λ met. AreTotals aggregate met (take both cells.now) (take both groups.now)) }
{
    let mut met = GroupTotals {
        firsts: Firsts::Oids,
        count: 0,
        totals: Vec::new(alloc),
    };
    let mut from = 0;
    'runs: while from < both {
        let (beside, part) = run_of_both(cells, groups, from, both);
        met.add_pairs(alloc, aggregate, part, beside)?;
        from += beside.len() as u64;
    }
    Ok(met)
}

impl GroupTotals {
    /// Meets the groups of a part, with the cells beside them. Groups that are oids beside numbers
    /// have a loop of their own for each aggregate, without a test for each pair.
    fn add_pairs(
        &mut self,
        alloc: Global,
        aggregate: Aggregate,
        groups: Part<'_>,
        cells: Part<'_>,
    ) -> Result<(), Memory>
        requires even { length (part_cells groups) ≡ length (part_cells cells) }
        requires few { self.old.count + length (part_cells groups) ≤ 2 ^ 60 }
        ensures few { OnOk result (self.new.count ≤ self.old.count + length (part_cells groups.entry)) }
        ensures totals { OnOk result ((so_far met : List CellSeen) → length so_far ≡ length met → AreTotals aggregate self.old so_far met → AreTotals aggregate self.new (so_far ++ part_cells cells.entry) (met ++ part_cells groups.entry)) }
    {
        match (groups, cells) {
            (Part::Oids(oids), Part::Ints(numbers)) => {
                self.add_ints(alloc, aggregate, oids, numbers)
            }
            (groups, cells) => self.add_each(alloc, aggregate, groups, cells),
        }
    }

    /// Meets the groups with these oids, with the numbers beside them.
    fn add_ints(
        &mut self,
        alloc: Global,
        aggregate: Aggregate,
        oids: &[u64],
        numbers: &[i64],
    ) -> Result<(), Memory>
        requires even { length (map Oid oids.now) ≡ length (map Int numbers.now) }
        requires few { self.old.count + length (map Oid oids.now) ≤ 2 ^ 60 }
        ensures few { OnOk result (self.new.count ≤ self.old.count + length (map Oid oids.now)) }
        ensures totals { OnOk result ((so_far met : List CellSeen) → length so_far ≡ length met → AreTotals aggregate self.old so_far met → AreTotals aggregate self.new (so_far ++ map Int numbers.now) (met ++ map Oid oids.now)) }
    {
        let (groups, cells) = (Part::Oids(oids), Part::Ints(numbers));
        match aggregate {
            Aggregate::Count => self.add_each(alloc, Aggregate::Count, groups, cells),
            Aggregate::Sum => self.add_each(alloc, Aggregate::Sum, groups, cells),
            Aggregate::Min => self.add_each(alloc, Aggregate::Min, groups, cells),
            Aggregate::Max => self.add_each(alloc, Aggregate::Max, groups, cells),
        }
    }

    /// Meets the groups of a part, one after another, with the cells beside them.
    #[inline(always)]
    fn add_each(
        &mut self,
        alloc: Global,
        aggregate: Aggregate,
        groups: Part<'_>,
        cells: Part<'_>,
    ) -> Result<(), Memory>
        requires even { length (part_cells groups) ≡ length (part_cells cells) }
        requires few { self.old.count + length (part_cells groups) ≤ 2 ^ 60 }
        ensures few { OnOk result (self.new.count ≤ self.old.count + length (part_cells groups.entry)) }
        ensures totals { OnOk result ((so_far met : List CellSeen) → length so_far ≡ length met → AreTotals aggregate self.old so_far met → AreTotals aggregate self.new (so_far ++ part_cells cells.entry) (met ++ part_cells groups.entry)) }
    {
        for i in 0..groups.len() {
            self.add_pair(alloc, aggregate, groups, cells, i)?;
        }
        Ok(())
    }

    /// Meets the group at a place, with the cell beside it.
    #[inline(always)]
    fn add_pair(
        &mut self,
        alloc: Global,
        aggregate: Aggregate,
        groups: Part<'_>,
        cells: Part<'_>,
        at: usize,
    ) -> Result<(), Memory>
        requires group { at < length (part_cells groups) }
        requires cell { at < length (part_cells cells) }
        requires few { self.old.count < 2 ^ 60 }
        ensures few { OnOk result (self.new.count ≤ self.old.count + 1) }
        ensures totals { OnOk result ((so_far met : List CellSeen) → length so_far ≡ length met → AreTotals aggregate self.old so_far met → AreTotals aggregate self.new (so_far ++ slice_index_or (part_cells cells.entry) at Nil ∷ []) (met ++ slice_index_or (part_cells groups.entry) at Nil ∷ [])) }
    {
        let number = self.meet(alloc, aggregate, groups, at)?;
        // This never happens, since each group that was met has its total.
        if number >= self.totals.len() {
            return Err(Memory);
        }
        add_at(aggregate, cells, at, &mut self.totals[number])
    }

    /// Meets the groups from a place on, beside which there are no cells.
    fn meet_from(
        &mut self,
        alloc: Global,
        aggregate: Aggregate,
        groups: &Cells,
        from: u64,
    ) -> Result<(), Memory>
        requires from { from ≤ length groups.now }
        requires few { self.old.count ≤ from }
        ensures { OnOk result ((so_far : List CellSeen) → length so_far ≤ from → AreTotals aggregate self.old so_far (take from groups.now) → AreTotals aggregate self.new so_far groups.now) }
    {
        let mut at = from;
        'runs: while at < groups.len() {
            let part = groups.run(at);
            self.meet_part(alloc, aggregate, part)?;
            at += part.len() as u64;
        }
        Ok(())
    }

    /// Meets the groups of a part, beside which there are no cells.
    fn meet_part(
        &mut self,
        alloc: Global,
        aggregate: Aggregate,
        groups: Part<'_>,
    ) -> Result<(), Memory>
        requires { self.old.count + length (part_cells groups) ≤ 2 ^ 60 }
        ensures few { OnOk result (self.new.count ≤ self.old.count + length (part_cells groups.entry)) }
        ensures met { OnOk result ((so_far met : List CellSeen) → length so_far ≤ length met → AreTotals aggregate self.old so_far met → AreTotals aggregate self.new so_far (met ++ part_cells groups.entry)) }
    {
        for i in 0..groups.len() {
            self.meet(alloc, aggregate, groups, i)?;
        }
        Ok(())
    }

    /// Meets the group at a place, and returns its number.
    #[inline(always)]
    fn meet(
        &mut self,
        alloc: Global,
        aggregate: Aggregate,
        groups: Part<'_>,
        at: usize,
    ) -> Result<usize, Memory>
        requires within { at < length (part_cells groups) }
        requires few { self.old.count < 2 ^ 60 }
        ensures few { OnOk result (self.new.count ≤ self.old.count + 1) }
        ensures place { IfOk result (λ n. (so_far met : List CellSeen) → AreTotals aggregate self.old so_far met → n ≡ position_or_len (λ y. same_cell y (slice_index_or (part_cells groups.entry) at Nil)) (distinct same_cell met)) }
        ensures met { OnOk result ((so_far met : List CellSeen) → length so_far ≤ length met → AreTotals aggregate self.old so_far met → AreTotals aggregate self.new so_far (met ++ slice_index_or (part_cells groups.entry) at Nil ∷ [])) }
    {
        let number = self.firsts.number_at(alloc, &mut self.count, groups, at)?;
        begin_total(aggregate, number, &mut self.totals)?;
        Ok(number as usize)
    }
}

/// Adds the total of no cells where the number is the next.
#[inline]
fn begin_total(aggregate: Aggregate, number: u64, totals: &mut Vec<Cell>) -> Result<(), Memory>
    ensures { OnOk result (totals.new.items ≡ (if number == length totals.old.items then totals.old.items ++ aggregate_of aggregate [] ∷ [] else totals.old.items)) }
{
    if number == totals.len() as u64 {
        totals.push(aggregate.of_none())?;
    }
    Ok(())
}
