//! The cells of columns that are made in one step, and the facts about them.
ghost use Rattle.std.specs.Prelude.{◌≡◌, ◌+◌, ◌*◌, ◌^◌, ◌<◌, length, IfOk, IfSome, replicate};
ghost use Rattle.chunk_core.specs.Facts.{AreToldOf, rises, is_dense};
ghost use Rattle.chunk_core.specs.Filled.{oids_from};
ghost use Rattle.chunk_core.specs.Chunks.{chunk_cells};
ghost use Rattle.bat_core.specs.Chunks.{held_cells};

use crate::pile::{CHUNK, Pile};
use cell_core::{Cell, Memory, stated_bytes};
use chunk_core::{BYTES_LIMIT, Chunk, Count, Facts};
use std::alloc::Global;
use std::sync::Arc;

/// The facts about a number of oids that rise by one each.
pub(crate) fn oid_facts(from: u64, count: u64) -> Option<Facts>
    ensures { IfSome result (λ facts. AreToldOf facts (oids_from from count)) }
{
    let bytes = count.checked_mul(8)?;
    if bytes >= BYTES_LIMIT {
        return None;
    }
    Some(Facts {
        bytes,
        rises: true,
        dense: true,
    })
}

/// Oids from a number on.
pub(crate) fn oid_chunk(from: u64, count: usize) -> Chunk
    requires { from + count < 2 ^ 64 }
    ensures { chunk_cells result ≡ oids_from from count }
{
    Chunk::Rising(Count {
        first: from,
        len: count,
    })
}

/// Full chunks of oids from a number on.
pub(crate) fn oid_pile(alloc: Global, from: u64, chunks: u64) -> Result<Pile, Memory>
    requires { from + CHUNK * chunks < 2 ^ 64 }
    ensures { IfOk result (λ pile. pile ≡ oids_from from (CHUNK * chunks)) }
{
    let mut pile = Pile::new(alloc);
    for i in 0..chunks {
        let chunk = oid_chunk(from + CHUNK as u64 * i, CHUNK);
        let Ok(()) = pile.add(alloc, chunk) else {
            return Err(Memory);
        };
    }
    Ok(pile)
}

/// The facts about a cell that is repeated.
pub(crate) fn repeated_facts(cell: &Cell, count: u64) -> Option<Facts>
    ensures { IfSome result (λ facts. AreToldOf facts (replicate count cell.now)) }
{
    let bytes = count.checked_mul(stated_bytes(cell))?;
    if bytes >= BYTES_LIMIT {
        return None;
    }
    Some(Facts {
        bytes,
        rises: rises_repeated(cell, count),
        dense: dense_repeated(cell, count),
    })
}

/// Whether a cell that is repeated rises.
fn rises_repeated(cell: &Cell, count: u64) -> bool
    ensures { result ≡ rises (replicate count cell.now) }
{
    let _any = cell;
    match count {
        0 | 1 => true,
        _ => false,
    }
}

/// Whether a cell that is repeated is dense.
fn dense_repeated(cell: &Cell, count: u64) -> bool
    ensures { result ≡ is_dense (replicate count cell.now) }
{
    match count {
        0 => true,
        1 => matches!(cell, Cell::Oid(_)),
        _ => false,
    }
}

/// A cell, a number of times.
pub(crate) fn repeated_chunk(alloc: Global, cell: &Cell, count: usize) -> Result<Chunk, Memory>
    ensures { IfOk result (λ chunk. chunk_cells chunk ≡ replicate count cell.now) }
{
    let mut chunk = Chunk::none(alloc);
    for _ in 0..count {
        chunk.push(alloc, cell.share()?)?;
    }
    Ok(chunk)
}

/// Full chunks of a cell, which are one chunk.
pub(crate) fn repeated_pile(alloc: Global, cell: &Cell, chunks: u64) -> Result<Pile, Memory>
    ensures { IfOk result (λ pile. pile ≡ replicate (CHUNK * chunks) cell.now) }
{
    let mut pile = Pile::new(alloc);
    if chunks == 0 {
        return Ok(pile);
    }
    let chunk = Arc::new(alloc, repeated_chunk(alloc, cell, CHUNK)?)?;
    for _ in 0..chunks {
        pile.add_shared(&chunk)?;
    }
    Ok(pile)
}
