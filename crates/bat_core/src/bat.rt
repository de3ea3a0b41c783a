//! A list of pairs of cells, kept as two columns.
ghost use Rattle.std.specs.Prelude.{◌≡◌, [], ◌+◌, ◌++◌, ◌^◌, ◌<◌, ◌≤◌, length, take, slice_index_or, IfOk};
ghost use Rattle.std.specs.List.{zip};
ghost use Rattle.cell_core.specs.Pairs.{heads_of, tails_of};
ghost use Rattle.cell_core.specs.Relations.{reversed, mirrored};
ghost use Rattle.chunk_core.specs.Facts.{rises};
ghost use Rattle.bat_core.specs.Bats.{bat_bytes};
ghost use Rattle.chunk_core.specs.Parts.{part_cells, lent_cell};

use crate::cells::Cells;
use cell_core::Memory;
use chunk_core::{CellAt, Part};
use std::alloc::Global;
use std::marker::Model;

/// A binary association table, which contracts see as its list of pairs (head, tail). It has fewer
/// than 2^60 pairs, with fewer than 2^62 stated bytes; growing past a limit fails with `Memory`.
pub struct Bat {
    heads: Cells,
    tails: Cells,
}

// By a call of its own, so that proofs needn't go through its forms where one is dropped.
impl Drop for Bat {
    fn drop(self) {
        let Bat { heads: _, tails: _ } = self;
    }
}

impl Model for Bat {
    ghost use Rattle.std.specs.Prelude.{◌≡◌, List, length};
    ghost use Rattle.std.specs.List.{zip};
    ghost use Rattle.cell_core.specs.declared.cell.Cell.{Cell};

    ghost Value = { List (Cell × Cell) };

    ghost view = { λ b. zip b.heads b.tails };

    ghost invariant = { λ b. length b.tails ≡ length b.heads };
}

impl Bat {
    /// The BAT without pairs.
    pub fn new(alloc: Global) -> Bat
        ensures { result ≡ [] }
    {
        Bat {
            heads: Cells::new(alloc),
            tails: Cells::new(alloc),
        }
    }

    /// The BAT that pairs two columns place by place, without a copy.
    pub fn from_columns(heads: Cells, tails: Cells) -> Bat
        requires { length tails ≡ length heads }
        ensures { result ≡ zip heads tails }
    {
        Bat { heads, tails }
    }

    /// The column of the heads.
    pub fn heads(&self) -> &Cells
        ensures { result.now ≡ heads_of self.now }
    {
        &self.heads
    }

    /// The column of the tails.
    pub fn tails(&self) -> &Cells
        ensures { result.now ≡ tails_of self.now }
    {
        &self.tails
    }

    /// How many pairs there are.
    pub fn len(&self) -> u64
        ensures len { result ≡ length self.now }
        ensures small { result < 2 ^ 60 }
    {
        self.heads().len()
    }

    /// The pair at a place, counted from 0.
    pub fn pair(&self, i: u64) -> (CellAt<'_>, CellAt<'_>)
        requires { i < length self.now }
        ensures { (lent_cell result.0, lent_cell result.1) ≡ slice_index_or self.now i (lent_cell result.0, lent_cell result.1) }
    {
        (self.heads().get(i), self.tails().get(i))
    }

    /// The heads and the tails from a place on, as far as both lie together.
    pub fn run(&self, from: u64) -> (Part<'_>, Part<'_>)
        requires { from < length self.now }
        ensures some { 0 < length (part_cells result.0) }
        ensures even { length (part_cells result.1) ≡ length (part_cells result.0) }
        ensures pairs { take (from + length (part_cells result.0)) self.now ≡ take from self.now ++ zip (part_cells result.0) (part_cells result.1) }
        ensures within { from + length (part_cells result.0) ≤ length self.now }
    {
        let heads = self.heads().run(from);
        let tails = self.tails().run(from);
        let count = heads.len().min(tails.len());
        (heads.front(count), tails.front(count))
    }

    /// The stated bytes, which are kept and not counted.
    pub fn bytes(&self) -> u64
        ensures bytes { result ≡ bat_bytes self.now }
        ensures small { result < 2 ^ 62 }
    {
        let heads = if self.heads().is_dense() {
            0
        } else {
            self.heads().bytes()
        };
        64 + self.tails().bytes() + heads
    }

    /// Whether each head is strictly before the next, which is kept and not tested.
    pub fn heads_rise(&self) -> bool
        ensures { result ≡ rises (heads_of self.now) }
    {
        self.heads().rises()
    }

    /// The pairs with their cells exchanged, in columns that both BATs share.
    pub fn reversed(&self, alloc: Global) -> Result<Bat, Memory>
        ensures { IfOk result (λ out. out ≡ reversed self.now) }
    {
        let heads = self.tails().share(alloc)?;
        let tails = self.heads().share(alloc)?;
        Ok(Bat { heads, tails })
    }

    /// Each head paired with itself, in columns that both BATs share.
    pub fn mirrored(&self, alloc: Global) -> Result<Bat, Memory>
        ensures { IfOk result (λ out. out ≡ mirrored self.now) }
    {
        let heads = self.heads().share(alloc)?;
        let tails = self.heads().share(alloc)?;
        Ok(Bat { heads, tails })
    }

    /// The heads, in a column that both BATs share, with other tails.
    pub fn with_tails(&self, alloc: Global, tails: Cells) -> Result<Bat, Memory>
        requires { length tails ≡ length self.now }
        ensures { IfOk result (λ out. out ≡ zip (heads_of self.now) tails) }
    {
        let heads = self.heads().share(alloc)?;
        Ok(Bat { heads, tails })
    }

    /// These pairs and then those of another BAT. The full chunks of these are shared.
    pub fn followed_by(&self, alloc: Global, more: &Bat) -> Result<Bat, Memory>
        ensures { IfOk result (λ out. out ≡ self.now ++ more.now) }
    {
        let heads = self.heads().followed_by(alloc, more.heads())?;
        let tails = self.tails().followed_by(alloc, more.tails())?;
        Ok(Bat { heads, tails })
    }
}
