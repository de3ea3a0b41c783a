//! Keys that are numbered by their first occurrence.
ghost use Rattle.std.specs.Prelude.{◌≡◌, ◌+◌, ◌++◌, [], ◌∷◌, ◌<◌, ◌≤◌, ◌^◌, List, OnOk};
ghost use Rattle.cell_core.specs.declared.cell.Cell.{Cell as CellSeen};
ghost use Rattle.cell_core.specs.Same.{same_cell};
ghost use Rattle.bat_group.specs.Keys.{AreKeys};

use crate::numbers::{number_of, number_of_cell};
use bat_core::CellsBuilder;
use cell_core::{Cell, Memory};
use std::alloc::Global;
use std::collections::HashMap;
use std::hash::Hash;

/// The keys met so far, and the number that each of them got.
#[derive(Drop)]
pub(crate) struct Numbered<K: Eq + Hash + Drop> {
    /// Each key that was met with its number.
    pub numbers: HashMap<K, u64>,
    /// How many were met.
    pub count: u64,
    /// The number of each key, an oid.
    pub out: CellsBuilder,
}

impl<K: Eq + Hash + Drop> Numbered<K> {
    /// Before any key is met.
    pub(crate) fn new(alloc: Global) -> Numbered<K>
        ensures few { result.count ≡ 0 }
        ensures met { AreKeys K.eq result [] }
    {
        Numbered {
            numbers: HashMap::new(alloc),
            count: 0,
            out: CellsBuilder::new(alloc),
        }
    }

    /// Gives a key its number.
    #[inline(always)]
    pub(crate) fn meet(&mut self, alloc: Global, key: K) -> Result<(), Memory>
        requires { self.old.count < 2 ^ 60 }
        ensures few { OnOk result (self.new.count ≤ self.old.count + 1) }
        ensures met { OnOk result ((keys : List K) → AreKeys K.eq self.old keys → AreKeys K.eq self.new (keys ++ key ∷ [])) }
    {
        let own = number_of(&mut self.numbers, &mut self.count, key)?;
        self.out.push(alloc, Cell::Oid(own))
    }
}

impl Numbered<Cell> {
    /// Gives a cell its number. It is looked up where it lies, and shared only where it is the
    /// first of its number.
    #[inline]
    pub(crate) fn meet_cell(&mut self, alloc: Global, cell: &Cell) -> Result<(), Memory>
        requires { self.old.count < 2 ^ 60 }
        ensures few { OnOk result (self.new.count ≤ self.old.count + 1) }
        ensures met { OnOk result ((cells : List CellSeen) → AreKeys same_cell self.old cells → AreKeys same_cell self.new (cells ++ cell.now ∷ [])) }
    {
        let own = number_of_cell(&mut self.numbers, &mut self.count, cell)?;
        self.out.push(alloc, Cell::Oid(own))
    }
}
