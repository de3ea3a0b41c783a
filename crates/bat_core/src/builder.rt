//! Columns that are being made, cell by cell or part by part.
ghost use Rattle.std.specs.Prelude.{◌≡◌, [], ◌∷◌, ◌+◌, ◌++◌, ◌<◌, ◌≤◌, length, map, IfOk, IfSome, OnOk, OnErr};
ghost use Rattle.std.specs.Option.{option_copied, option_map};
ghost use Rattle.chunk_core.specs.Facts.{AreToldOf, last_cell};
ghost use Rattle.chunk_core.specs.Chunks.{chunk_cells};
ghost use Rattle.chunk_core.specs.Parts.{part_cells, lent_cell};
ghost use Rattle.chunk_core.specs.Picked.{picked, AreWithin};
ghost use Rattle.cell_core.specs.declared.cell.Cell.TheVariants.{Nil};

use crate::bat::Bat;
use crate::cells::Cells;
use crate::pile::{CHUNK, Pile};
use cell_core::{Cell, Memory};
use chunk_core::{CellAt, Chunk, Facts, Part, facts_after};
use std::alloc::Global;
use std::marker::Model;
use std::mem;

/// A column that is being made, which contracts see as the list of its cells. The facts about them
/// are updated a chunk at a time.
pub struct CellsBuilder {
    pile: Pile,
    facts: Facts,
    loose: Chunk,
}

// By a call of its own, so that proofs needn't go through its forms where one is dropped.
impl Drop for CellsBuilder {
    fn drop(self) {
        let CellsBuilder {
            pile: _,
            facts: _,
            loose: _,
        } = self;
    }
}

impl Model for CellsBuilder {
    ghost use Rattle.std.specs.Prelude.{List, ◌++◌, ◌≤◌, length};
    ghost use Rattle.cell_core.specs.declared.cell.Cell.{Cell};
    ghost use Rattle.chunk_core.specs.Facts.{AreToldOf};
    ghost use Rattle.chunk_core.specs.Chunks.{chunk_cells};

    ghost Value = { List Cell };

    ghost view = { λ b. b.pile ++ chunk_cells b.loose };

    ghost invariant = { λ b. AreToldOf b.facts b.pile };
}

impl CellsBuilder {
    /// The beginning of a column, without cells.
    pub fn new(alloc: Global) -> CellsBuilder
        ensures { result ≡ [] }
    {
        CellsBuilder {
            pile: Pile::new(alloc),
            facts: Facts::none(),
            loose: Chunk::none(alloc),
        }
    }

    /// The beginning of a column with the cells of a pile, about which these facts hold.
    pub(crate) fn behind(alloc: Global, pile: Pile, facts: Facts) -> CellsBuilder
        requires { AreToldOf facts pile }
        ensures { result ≡ pile }
    {
        CellsBuilder {
            pile,
            facts,
            loose: Chunk::none(alloc),
        }
    }

    /// Adds a cell at the end.
    #[inline(always)]
    pub fn push(&mut self, alloc: Global, cell: Cell) -> Result<(), Memory>
        ensures ok { OnOk result (self.new ≡ self.old ++ cell ∷ []) }
        ensures err { OnErr result (self.new ≡ self.old) }
    {
        if self.loose.len() == CHUNK {
            close_chunk(alloc, &mut self.pile, &mut self.facts, &mut self.loose)?;
        }
        self.loose.push(alloc, cell)
    }

    /// Adds the cells of a part at the end, in order. On `Memory` the column keeps the cells that it had,
    /// and the first of these may follow.
    pub fn push_part(&mut self, alloc: Global, part: Part<'_>) -> Result<(), Memory>
        ensures { OnOk result (self.new ≡ self.old ++ part_cells part.entry) }
    {
        for i in 0..part.len() {
            self.push(alloc, part.get(i).cell().share()?)?;
        }
        Ok(())
    }

    /// Adds the cells of a part at these places, in the order of the places. On `Memory` the column keeps
    /// the cells that it had, and the first of these may follow.
    pub fn push_places(
        &mut self,
        alloc: Global,
        part: Part<'_>,
        places: &[u32],
    ) -> Result<(), Memory>
        requires { AreWithin places.now (length (part_cells part)) }
        ensures { OnOk result (self.new ≡ self.old ++ picked Nil (part_cells part.entry) places.now) }
    {
        let mut from = 0;
        'places: while from < places.len() {
            let room = self.make_room(alloc)?;
            let count = room.min(places.len() - from);
            self.add_places(alloc, part, &places[from..from + count])?;
            from += count;
        }
        Ok(())
    }

    /// Adds the cells of a part at these places, for which there is room.
    fn add_places(&mut self, alloc: Global, part: Part<'_>, places: &[u32]) -> Result<(), Memory>
        requires { AreWithin places.now (length (part_cells part)) }
        ensures { OnOk result (self.new ≡ self.old ++ picked Nil (part_cells part.entry) places.now) }
    {
        self.loose.push_places(alloc, part, places)
    }

    /// Makes room, and says for how many cells.
    fn make_room(&mut self, alloc: Global) -> Result<usize, Memory>
        ensures same { OnOk result (self.new ≡ self.old) }
        ensures some { IfOk result (λ room. 0 < room) }
    {
        if self.loose.len() == CHUNK {
            close_chunk(alloc, &mut self.pile, &mut self.facts, &mut self.loose)?;
        }
        let len = self.loose.len();
        if len < CHUNK {
            Ok(CHUNK - len)
        } else {
            Err(Memory)
        }
    }

    /// The column, once all its cells are there.
    pub fn finish(self, alloc: Global) -> Result<Cells, Memory>
        ensures { IfOk result (λ cells. cells ≡ self) }
    {
        let CellsBuilder { pile, facts, loose } = self;
        match facts_behind(facts, &pile, loose.part(0)) {
            Some(all) => Cells::from_parts(alloc, pile, facts, loose, all),
            None => Err(Memory),
        }
    }
}

/// A BAT that is being made, which contracts see as its list of pairs.
pub struct BatBuilder {
    heads: CellsBuilder,
    tails: CellsBuilder,
}

// By a call of its own, so that proofs needn't go through its forms where one is dropped.
impl Drop for BatBuilder {
    fn drop(self) {
        let BatBuilder { heads: _, tails: _ } = self;
    }
}

impl Model for BatBuilder {
    ghost use Rattle.std.specs.Prelude.{◌≡◌, List, length};
    ghost use Rattle.std.specs.List.{zip};
    ghost use Rattle.cell_core.specs.declared.cell.Cell.{Cell};

    ghost Value = { List (Cell × Cell) };

    ghost view = { λ b. zip b.heads b.tails };

    ghost invariant = { λ b. length b.tails ≡ length b.heads };
}

impl BatBuilder {
    /// The beginning of a BAT, without pairs.
    pub fn new(alloc: Global) -> BatBuilder
        ensures { result ≡ [] }
    {
        BatBuilder {
            heads: CellsBuilder::new(alloc),
            tails: CellsBuilder::new(alloc),
        }
    }

    /// Adds a pair at the end. On `Memory` all pairs are dropped.
    #[inline]
    pub fn append(&mut self, alloc: Global, head: Cell, tail: Cell) -> Result<(), Memory>
        ensures ok { OnOk result (self.new ≡ self.old ++ (head, tail) ∷ []) }
        ensures err { OnErr result (self.new ≡ []) }
    {
        match push_both(alloc, &mut self.heads, &mut self.tails, head, tail) {
            Ok(()) => Ok(()),
            Err(Memory) => {
                self.heads = CellsBuilder::new(alloc);
                self.tails = CellsBuilder::new(alloc);
                Err(Memory)
            }
        }
    }

    /// The BAT, once all its pairs are there.
    pub fn finish(self, alloc: Global) -> Result<Bat, Memory>
        ensures { IfOk result (λ bat. bat ≡ self) }
    {
        let BatBuilder { heads, tails } = self;
        let heads = heads.finish(alloc)?;
        let tails = tails.finish(alloc)?;
        Ok(Bat::from_columns(heads, tails))
    }
}

/// Adds one cell at the end of each of two columns. On `Memory` the first may have its cell.
#[inline]
fn push_both(
    alloc: Global,
    heads: &mut CellsBuilder,
    tails: &mut CellsBuilder,
    head: Cell,
    tail: Cell,
) -> Result<(), Memory>
    ensures heads { OnOk result (heads.new ≡ heads.old ++ head ∷ []) }
    ensures tails { OnOk result (tails.new ≡ tails.old ++ tail ∷ []) }
{
    heads.push(alloc, head)?;
    tails.push(alloc, tail)
}

/// Moves the cells of the open chunk, which is full, to the pile.
#[cold]
#[inline(never)]
fn close_chunk(
    alloc: Global,
    pile: &mut Pile,
    facts: &mut Facts,
    loose: &mut Chunk,
) -> Result<(), Memory>
    requires told { AreToldOf facts.old pile.old }
    requires full { length (chunk_cells loose.old) ≡ CHUNK }
    ensures cells { pile.new ++ chunk_cells loose.new ≡ pile.old ++ chunk_cells loose.old }
    ensures told { AreToldOf facts.new pile.new }
{
    let Some(after) = facts_behind(*facts, pile, loose.part(0)) else {
        return Err(Memory);
    };
    let full = mem::replace(loose, Chunk::none(alloc));
    if let Err(back) = pile.add(alloc, full) {
        *loose = back;
        return Err(Memory);
    }
    *facts = after;
    Ok(())
}

/// The facts once the cells of a part follow those of a pile.
fn facts_behind(facts: Facts, pile: &Pile, more: Part<'_>) -> Option<Facts>
    requires { AreToldOf facts pile.now }
    ensures { IfSome result (λ after. AreToldOf after (pile.now ++ part_cells more.entry)) }
{
    match last_of(pile) {
        Some(last) => facts_after(facts, Some(last.cell()), more),
        None => facts_after(facts, None, more),
    }
}

/// The last cell of a pile, if there is one.
fn last_of(pile: &Pile) -> Option<CellAt<'_>>
    ensures { option_map lent_cell result ≡ last_cell pile.now }
{
    let count = pile.len();
    if count == 0 {
        None
    } else {
        Some(pile.run(count - 1).get(0))
    }
}
