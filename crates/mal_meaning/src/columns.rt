//! Columns of pairs, as plain lists of cells.
ghost use Rattle.std.specs.Prelude.{◌≡◌, ◌++◌, ◌∷◌, [], zip, IfOk, OnOk};
ghost use Rattle.cell_core.specs.Pairs.{heads_of, tails_of, numbered};

use cell_core::{Cell, Memory, Sequence};
use std::alloc::Global;

/// Adds an equal cell at the end.
pub(crate) fn push_cell(cells: &mut Sequence<Cell>, cell: &Cell) -> Result<(), Memory>
    ensures { OnOk result (cells.new ≡ cells.old ++ cell.now ∷ []) }
{
    cells.push(cell.share()?)
}

/// Adds two equal cells at the end, side by side.
pub(crate) fn push_pair(
    pairs: &mut Sequence<(Cell, Cell)>,
    head: &Cell,
    tail: &Cell,
) -> Result<(), Memory>
    ensures { OnOk result (pairs.new ≡ pairs.old ++ (head.now, tail.now) ∷ []) }
{
    let head = head.share()?;
    let tail = tail.share()?;
    pairs.push((head, tail))
}

pub(crate) fn heads(alloc: Global, b: &[(Cell, Cell)]) -> Result<Sequence<Cell>, Memory>
    ensures { IfOk result (λ cells. cells ≡ heads_of b.now) }
{
    let mut cells = Sequence::new(alloc);
    let mut rest = b;
    'pairs: while let [pair, more @ ..] = rest {
        push_cell(&mut cells, &pair.0)?;
        rest = more;
    }
    Ok(cells)
}

pub(crate) fn tails(alloc: Global, b: &[(Cell, Cell)]) -> Result<Sequence<Cell>, Memory>
    ensures { IfOk result (λ cells. cells ≡ tails_of b.now) }
{
    let mut cells = Sequence::new(alloc);
    let mut rest = b;
    'pairs: while let [pair, more @ ..] = rest {
        push_cell(&mut cells, &pair.1)?;
        rest = more;
    }
    Ok(cells)
}

/// The cells of two columns side by side, as far as the shorter goes.
pub(crate) fn pair_up(
    alloc: Global,
    heads: &[Cell],
    tails: &[Cell],
) -> Result<Sequence<(Cell, Cell)>, Memory>
    ensures { IfOk result (λ out. out ≡ zip heads.now tails.now) }
{
    let mut out = Sequence::new(alloc);
    let (mut left, mut right) = (heads, tails);
    'places: while let [head, heads @ ..] = left {
        let [tail, tails @ ..] = right else {
            return Ok(out);
        };
        push_pair(&mut out, head, tail)?;
        left = heads;
        right = tails;
    }
    Ok(out)
}

/// The cells beside the oids 0, 1, 2 and so on.
pub(crate) fn number(alloc: Global, cells: &[Cell]) -> Result<Sequence<(Cell, Cell)>, Memory>
    ensures { IfOk result (λ out. out ≡ numbered cells.now) }
{
    let mut out = Sequence::new(alloc);
    let mut place = 0;
    let mut rest = cells;
    'cells: while let [cell, more @ ..] = rest {
        push_pair(&mut out, &Cell::Oid(place), cell)?;
        place += 1;
        rest = more;
    }
    Ok(out)
}
