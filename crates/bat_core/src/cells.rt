//! A column of cells, in chunks that several columns share.
ghost use Rattle.std.specs.Prelude.{◌≡◌, [], ◌∷◌, ◌+◌, ◌++◌, ◌^◌, ◌<◌, ◌≤◌, length, slice_index_or, take, IfOk, replicate};
ghost use Rattle.chunk_core.specs.Facts.{rises, is_dense, cells_bytes, AreToldOf};
ghost use Rattle.chunk_core.specs.Filled.{oids_from};
ghost use Rattle.chunk_core.specs.Parts.{part_cells, lent_cell};
ghost use Rattle.chunk_core.specs.Chunks.{chunk_cells};
ghost use Rattle.bat_core.specs.Chunks.{held_cells, last_cells};

use crate::builder::CellsBuilder;
use crate::filled::{
    oid_chunk, oid_facts, oid_pile, repeated_chunk, repeated_facts, repeated_pile,
};
use crate::pile::{CHUNK, Pile};
use cell_core::{Cell, Memory};
use chunk_core::{CellAt, Chunk, Facts, Part};
use std::alloc::Global;
use std::marker::Model;
use std::sync::Arc;

/// The cells of a column, which contracts see as their list. Growing past the limit of 2^60 stated
/// bytes fails with `Memory`.
pub struct Cells {
    pile: Pile,
    piled: Facts,
    last: Option<Arc<Chunk>>,
    facts: Facts,
}

// By a call of its own, so that proofs needn't go through its forms where one is dropped.
impl Drop for Cells {
    fn drop(self) {
        let Cells {
            pile: _,
            piled: _,
            last: _,
            facts: _,
        } = self;
    }
}

impl Model for Cells {
    ghost use Rattle.std.specs.Prelude.{List, ◌++◌};
    ghost use Rattle.cell_core.specs.declared.cell.Cell.{Cell};
    ghost use Rattle.chunk_core.specs.Facts.{AreToldOf};
    ghost use Rattle.bat_core.specs.Chunks.{last_cells};

    ghost Value = { List Cell };

    ghost view = { λ c. c.pile ++ last_cells c.last };

    ghost invariant = { λ c. AreToldOf c.piled c.pile × AreToldOf c.facts (c.pile ++ last_cells c.last) };
}

impl Cells {
    /// The column without cells.
    pub fn new(alloc: Global) -> Cells
        ensures { result ≡ [] }
    {
        Cells {
            pile: Pile::new(alloc),
            piled: Facts::none(),
            last: None,
            facts: Facts::none(),
        }
    }

    /// The column of the cells of a pile and others after it, about which these facts hold.
    pub(crate) fn from_parts(
        alloc: Global,
        pile: Pile,
        piled: Facts,
        last: Chunk,
        facts: Facts,
    ) -> Result<Cells, Memory>
        requires piled { AreToldOf piled pile }
        requires all { AreToldOf facts (pile ++ chunk_cells last) }
        ensures { IfOk result (λ cells. cells ≡ pile ++ chunk_cells last) }
    {
        let last = Some(Arc::new(alloc, last)?);
        Ok(Cells {
            pile,
            piled,
            last,
            facts,
        })
    }

    /// That many oids from a number on, each one more than the one before.
    pub fn oids(alloc: Global, from: u64, count: u64) -> Result<Cells, Memory>
        requires { from + count < 2 ^ 64 }
        ensures { IfOk result (λ cells. cells ≡ oids_from from count) }
    {
        let chunks = count / CHUNK as u64;
        let full = CHUNK as u64 * chunks;
        let Some(piled) = oid_facts(from, full) else {
            return Err(Memory);
        };
        let Some(facts) = oid_facts(from, count) else {
            return Err(Memory);
        };
        let pile = oid_pile(alloc, from, chunks)?;
        let last = oid_chunk(from + full, (count - full) as usize);
        let made = Cells::from_parts(alloc, pile, piled, last, facts)?;
        Ok(made)
    }

    /// One cell, that many times. The full chunks are one chunk.
    pub fn repeated(alloc: Global, cell: &Cell, count: u64) -> Result<Cells, Memory>
        ensures { IfOk result (λ cells. cells ≡ replicate count cell.now) }
    {
        let chunks = count / CHUNK as u64;
        let full = CHUNK as u64 * chunks;
        let Some(piled) = repeated_facts(cell, full) else {
            return Err(Memory);
        };
        let Some(facts) = repeated_facts(cell, count) else {
            return Err(Memory);
        };
        let pile = repeated_pile(alloc, cell, chunks)?;
        let last = repeated_chunk(alloc, cell, (count - full) as usize)?;
        let made = Cells::from_parts(alloc, pile, piled, last, facts)?;
        Ok(made)
    }

    /// How many cells there are.
    pub fn len(&self) -> u64
        ensures len { result ≡ length self.now }
        ensures small { result < 2 ^ 60 }
    {
        (self.pile.len() + last_len(&self.last)) as u64
    }

    /// The cells from a place on, as far as they lie together.
    #[inline]
    pub fn run(&self, from: u64) -> Part<'_>
        requires { from < length self.now }
        ensures some { 0 < length (part_cells result) }
        ensures cells { take (from + length (part_cells result)) self.now ≡ take from self.now ++ part_cells result }
        ensures within { from + length (part_cells result) ≤ length self.now }
    {
        self.lying_from(from)
    }

    /// The cells from a place on, as far as they lie together.
    #[inline]
    fn lying_from(&self, from: u64) -> Part<'_>
        requires { from < length self.now }
        ensures some { 0 < length (part_cells result) }
        ensures cells { take (from + length (part_cells result)) self.now ≡ take from self.now ++ part_cells result }
    {
        let from = from as usize;
        let piled = self.pile.len();
        if from < piled {
            self.pile.run(from)
        } else {
            match &self.last {
                Some(last) => last.part(from - piled),
                None => unreachable!(),
            }
        }
    }

    /// The cell at a place, counted from 0.
    #[inline]
    pub fn get(&self, at: u64) -> CellAt<'_>
        requires { at < length self.now }
        ensures { lent_cell result ≡ slice_index_or self.now at (lent_cell result) }
    {
        self.run(at).get(0)
    }

    /// A cell that is equal to the one at a place, counted from 0.
    #[inline]
    pub fn copy(&self, at: u64) -> Result<Cell, Memory>
        requires { at < length self.now }
        ensures { IfOk result (λ cell. cell ≡ slice_index_or self.now at cell) }
    {
        let held = self.get(at);
        held.cell().share()
    }

    /// The sum of the cells' stated bytes.
    pub fn bytes(&self) -> u64
        ensures sum { result ≡ cells_bytes self.now }
        ensures small { result < 2 ^ 60 }
    {
        self.facts.bytes
    }

    /// Whether each cell is strictly before the next.
    pub fn rises(&self) -> bool
        ensures { result ≡ rises self.now }
    {
        self.facts.rises
    }

    /// Whether the cells are dense: oids that rise by one each.
    pub fn is_dense(&self) -> bool
        ensures { result ≡ is_dense self.now }
    {
        self.facts.dense
    }

    /// The first cells. Where these are all, the chunks are shared.
    pub fn front(&self, alloc: Global, count: u64) -> Result<Cells, Memory>
        requires { count ≤ length self.now }
        ensures { IfOk result (λ cells. cells ≡ take count self.now) }
    {
        if count == self.len() {
            return self.share(alloc);
        }
        let mut out = CellsBuilder::new(alloc);
        let mut from = 0;
        while from < count {
            let run = self.run(from);
            let many = (count - from).min(run.len() as u64);
            out.push_part(alloc, run.front(many as usize))?;
            from += many;
        }
        out.finish(alloc)
    }

    /// These cells and then those of another column. The full chunks of these are shared.
    pub fn followed_by(&self, alloc: Global, more: &Cells) -> Result<Cells, Memory>
        ensures { IfOk result (λ cells. cells ≡ self.now ++ more.now) }
    {
        let mut out = self.reopened(alloc)?;
        let mut from = 0;
        while from < more.len() {
            let run = more.run(from);
            out.push_part(alloc, run)?;
            from += run.len() as u64;
        }
        out.finish(alloc)
    }

    /// A builder that continues after these cells. The full chunks are shared.
    fn reopened(&self, alloc: Global) -> Result<CellsBuilder, Memory>
        ensures { IfOk result (λ builder. builder ≡ self.now) }
    {
        let pile = self.pile.share(alloc)?;
        let mut out = CellsBuilder::behind(alloc, pile, self.piled);
        if let Some(last) = &self.last {
            out.push_part(alloc, last.part(0))?;
        }
        Ok(out)
    }

    /// An equal column, which shares all chunks.
    pub fn share(&self, alloc: Global) -> Result<Cells, Memory>
        ensures { IfOk result (λ cells. cells ≡ self.now) }
    {
        let pile = self.pile.share(alloc)?;
        let last = share_last(&self.last)?;
        Ok(Cells {
            pile,
            piled: self.piled,
            last,
            facts: self.facts,
        })
    }
}

/// How many cells the last chunk holds.
fn last_len(last: &Option<Arc<Chunk>>) -> usize
    ensures { result ≡ length (last_cells last.now) }
{
    match last {
        Some(chunk) => chunk.len(),
        None => 0,
    }
}

fn share_last(last: &Option<Arc<Chunk>>) -> Result<Option<Arc<Chunk>>, Memory>
    ensures { IfOk result (λ copy. last_cells copy ≡ last_cells last.now) }
{
    match last {
        Some(chunk) => Ok(Some(Arc::try_clone(chunk)?)),
        None => Ok(None),
    }
}
