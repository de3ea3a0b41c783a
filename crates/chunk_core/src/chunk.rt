//! Chunks of cells, each kept in the smallest form that holds it.
ghost use Rattle.std.specs.Prelude.{◌≡◌, [], ◌∷◌, ◌++◌, ◌+◌, ◌^◌, ◌<◌, ◌≤◌, length, drop, map, IfOk, OnOk, OnErr};
ghost use Rattle.cell_core.specs.declared.cell.Cell.TheVariants.{Nil, Oid};
ghost use Rattle.chunk_core.specs.Parts.{part_cells};
ghost use Rattle.chunk_core.specs.Picked.{picked, AreWithin};
ghost use Rattle.chunk_core.specs.Chunks.{chunk_cells};

use crate::count::Count;
use crate::kept::{Packed, kept_at};
use crate::part::Part;
use cell_core::{Cell, Memory};
use std::alloc::Global;

/// Cells of one kind as their numbers, oids that rise by one each, or any cells.
pub enum Chunk {
    /// The cells of kind Int with these numbers.
    Ints(Vec<i64>),
    /// The cells of kind Day with these numbers.
    Days(Vec<i32>),
    /// The cells of kind Oid with these numbers.
    Oids(Vec<u64>),
    /// Oids that rise by one each.
    Rising(Count),
    /// The cells of kind Bit with these values.
    Bits(Vec<bool>),
    /// Cells as they are.
    Cells(Vec<Cell>),
}

// By a call of its own, so that proofs needn't go through its forms where one is dropped.
impl Drop for Chunk {
    fn drop(self) {
        match self {
            Chunk::Ints(_)
            | Chunk::Days(_)
            | Chunk::Oids(_)
            | Chunk::Rising(_)
            | Chunk::Bits(_)
            | Chunk::Cells(_) => {}
        }
    }
}

impl Chunk {
    /// No cells.
    pub fn none(alloc: Global) -> Chunk
        ensures { chunk_cells result ≡ [] }
    {
        Chunk::Cells(Vec::new(alloc))
    }

    /// How many cells there are.
    #[inline]
    pub fn len(&self) -> usize
        ensures { result ≡ length (chunk_cells self.now) }
    {
        match self {
            Chunk::Ints(numbers) => numbers.len(),
            Chunk::Days(numbers) => numbers.len(),
            Chunk::Oids(numbers) => numbers.len(),
            Chunk::Rising(count) => count.len,
            Chunk::Bits(bits) => bits.len(),
            Chunk::Cells(cells) => cells.len(),
        }
    }

    /// The cells from a place on.
    #[inline]
    pub fn part(&self, from: usize) -> Part<'_>
        requires { from ≤ length (chunk_cells self.now) }
        ensures { part_cells result ≡ drop from (chunk_cells self.now) }
    {
        match self {
            Chunk::Ints(numbers) => Part::Ints(&numbers[from..]),
            Chunk::Days(numbers) => Part::Days(&numbers[from..]),
            Chunk::Oids(numbers) => Part::Oids(&numbers[from..]),
            Chunk::Rising(all) => Part::Rising(Count {
                first: all.first + from as u64,
                len: all.len - from,
            }),
            Chunk::Bits(bits) => Part::Bits(&bits[from..]),
            Chunk::Cells(cells) => Part::Cells(&cells[from..]),
        }
    }

    /// Adds a cell at the end.
    #[inline(always)]
    pub fn push(&mut self, alloc: Global, cell: Cell) -> Result<(), Memory>
        ensures ok { OnOk result (chunk_cells self.new ≡ chunk_cells self.old ++ cell ∷ []) }
        ensures err { OnErr result (chunk_cells self.new ≡ chunk_cells self.old) }
    {
        match (&mut *self, &cell) {
            (Chunk::Ints(numbers), Cell::Int(number)) => push_kept(numbers, *number),
            (Chunk::Days(numbers), Cell::Day(number)) => push_kept(numbers, *number),
            (Chunk::Oids(numbers), Cell::Oid(oid)) => push_kept(numbers, *oid),
            (Chunk::Bits(bits), Cell::Bit(bit)) => push_kept(bits, *bit),
            _ => push_other(self, alloc, cell),
        }
    }

    /// Adds the cells of a part at these places, in the order of the places. On `Memory` the chunk keeps
    /// the cells that it had, and the first of these may follow.
    pub fn push_places(
        &mut self,
        alloc: Global,
        part: Part<'_>,
        places: &[u32],
    ) -> Result<(), Memory>
        requires { AreWithin places.now (length (part_cells part)) }
        ensures { OnOk result (chunk_cells self.new ≡ chunk_cells self.old ++ picked Nil (part_cells part.entry) places.now) }
    {
        make_ready(self, alloc, part);
        match (&mut *self, part) {
            (Chunk::Ints(numbers), Part::Ints(from)) => pick_kept(numbers, from, places),
            (Chunk::Days(numbers), Part::Days(from)) => pick_kept(numbers, from, places),
            (Chunk::Oids(numbers), Part::Oids(from)) => pick_kept(numbers, from, places),
            (Chunk::Oids(numbers), Part::Rising(from)) => pick_rising(numbers, from, places),
            _ => pick_cells(self, alloc, part, places),
        }
    }

    /// No cells, in a form that takes those of a part.
    fn ready_for(alloc: Global, part: Part<'_>) -> Chunk
        ensures { chunk_cells result ≡ [] }
    {
        match part {
            Part::Ints(_) => Chunk::Ints(Vec::new(alloc)),
            Part::Days(_) => Chunk::Days(Vec::new(alloc)),
            Part::Oids(_) | Part::Rising(_) => Chunk::Oids(Vec::new(alloc)),
            Part::Bits(_) => Chunk::Bits(Vec::new(alloc)),
            Part::Cells(_) => Chunk::Cells(Vec::new(alloc)),
        }
    }
}

/// A chunk without cells gets the form of a part.
fn make_ready(chunk: &mut Chunk, alloc: Global, part: Part<'_>)
    ensures { chunk_cells chunk.new ≡ chunk_cells chunk.old }
{
    if chunk.len() == 0 {
        *chunk = Chunk::ready_for(alloc, part);
    }
}

/// Makes room for more of the cells that are added one by one.
fn make_room(chunk: &mut Chunk, more: usize) -> Result<(), Memory>
    ensures { chunk_cells chunk.new ≡ chunk_cells chunk.old }
{
    match chunk {
        Chunk::Bits(bits) => bits.reserve(more)?,
        Chunk::Cells(cells) => cells.reserve(more)?,
        _ => {}
    }
    Ok(())
}

/// Adds one at the end.
#[inline(always)]
fn push_kept<K: Packed>(kept: &mut Vec<K>, one: K) -> Result<(), Memory>
    ensures ok { OnOk result (map K.cell_of kept.new.items ≡ map K.cell_of kept.old.items ++ K.cell_of one ∷ []) }
    ensures err { OnErr result (map K.cell_of kept.new.items ≡ map K.cell_of kept.old.items) }
{
    kept.push(one)?;
    Ok(())
}

/// Adds the values kept at these places.
fn pick_kept<K: Packed>(numbers: &mut Vec<K>, from: &[K], places: &[u32]) -> Result<(), Memory>
    requires { AreWithin places.now (length from.now) }
    ensures { OnOk result (map K.cell_of numbers.new.items ≡ map K.cell_of numbers.old.items ++ picked Nil (map K.cell_of from.now) places.now) }
{
    numbers.reserve(places.len())?;
    for place in places {
        push_kept(numbers, kept_at(from, *place as usize))?;
    }
    Ok(())
}

/// Adds the oids at these places.
fn pick_rising(numbers: &mut Vec<u64>, from: Count, places: &[u32]) -> Result<(), Memory>
    requires { AreWithin places.now from.len }
    ensures { OnOk result (map Oid numbers.new.items ≡ map Oid numbers.old.items ++ map (λ i. Oid (from.first + i)) places.now) }
{
    numbers.reserve(places.len())?;
    for place in places {
        push_kept(numbers, from.first + u64::from(*place))?;
    }
    Ok(())
}

/// Adds the cells at these places.
fn pick_cells(
    chunk: &mut Chunk,
    alloc: Global,
    part: Part<'_>,
    places: &[u32],
) -> Result<(), Memory>
    requires { AreWithin places.now (length (part_cells part)) }
    ensures { OnOk result (chunk_cells chunk.new ≡ chunk_cells chunk.old ++ picked Nil (part_cells part.entry) places.now) }
{
    make_room(chunk, places.len())?;
    for place in places {
        chunk.push(alloc, part.copy(*place as usize)?)?;
    }
    Ok(())
}

/// Adds a cell at the end of cells of another kind, or of none.
#[inline(never)]
fn push_other(chunk: &mut Chunk, alloc: Global, cell: Cell) -> Result<(), Memory>
    ensures ok { OnOk result (chunk_cells chunk.new ≡ chunk_cells chunk.old ++ cell ∷ []) }
    ensures err { OnErr result (chunk_cells chunk.new ≡ chunk_cells chunk.old) }
{
    if chunk.len() == 0 {
        *chunk = chunk_of(alloc, cell)?;
        return Ok(());
    }
    if let Chunk::Cells(cells) = chunk {
        cells.push(cell)?;
        return Ok(());
    }
    let mut cells = copied(alloc, chunk.part(0))?;
    cells.push(cell)?;
    *chunk = Chunk::Cells(cells);
    Ok(())
}

/// A chunk of one cell.
fn chunk_of(alloc: Global, cell: Cell) -> Result<Chunk, Memory>
    ensures { IfOk result (λ chunk. chunk_cells chunk ≡ cell ∷ []) }
{
    match &cell {
        Cell::Int(number) => chunk_of_kept(alloc, *number),
        Cell::Day(number) => chunk_of_kept(alloc, *number),
        Cell::Oid(oid) => chunk_of_kept(alloc, *oid),
        Cell::Bit(bit) => chunk_of_kept(alloc, *bit),
        _ => chunk_of_cell(alloc, cell),
    }
}

/// A chunk of one cell of a kind that is kept as numbers or bits.
fn chunk_of_kept<K: Packed>(alloc: Global, one: K) -> Result<Chunk, Memory>
    ensures { IfOk result (λ chunk. chunk_cells chunk ≡ K.cell_of one ∷ []) }
{
    Ok(K::chunk(alone(alloc, one)?))
}

/// A chunk of one cell as it is.
fn chunk_of_cell(alloc: Global, cell: Cell) -> Result<Chunk, Memory>
    ensures { IfOk result (λ chunk. chunk_cells chunk ≡ cell ∷ []) }
{
    Ok(Chunk::Cells(alone(alloc, cell)?))
}

/// One item by itself.
fn alone<T: Drop>(alloc: Global, item: T) -> Result<Vec<T>, Memory>
    ensures { IfOk result (λ all. all.items ≡ item ∷ []) }
{
    let mut all = Vec::new(alloc);
    all.push(item)?;
    Ok(all)
}

/// The cells of a part, each by itself.
pub fn copied(alloc: Global, part: Part<'_>) -> Result<Vec<Cell>, Memory>
    ensures { IfOk result (λ cells. cells.items ≡ part_cells part.entry) }
{
    let count = part.len();
    let mut cells = Vec::with_capacity(alloc, count)?;
    for at in 0..count {
        cells.push(part.copy(at)?)?;
    }
    Ok(cells)
}
