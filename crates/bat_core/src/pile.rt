//! Full chunks of cells, which several columns share.
ghost use Rattle.std.specs.Prelude.{◌≡◌, [], ◌+◌, ◌++◌, ◌<◌, length, map, take, IfOk, IfErr, OnOk, OnErr};
ghost use Rattle.chunk_core.specs.Chunks.{chunk_cells};
ghost use Rattle.bat_core.specs.Chunks.{held_cells};
ghost use Rattle.chunk_core.specs.Parts.{part_cells};

use cell_core::Memory;
use chunk_core::{Chunk, Part};
use std::alloc::Global;
use std::marker::Model;
use std::sync::Arc;

/// How many cells a full chunk holds.
pub(crate) const CHUNK: usize = 4096;

/// Full chunks, which contracts see as the list of their cells.
#[derive(Drop)]
pub(crate) struct Pile {
    chunks: Vec<Arc<Chunk>>,
}

impl Model for Pile {
    ghost use Rattle.std.specs.Prelude.{List, ◌<◌, ◌^◌, length};
    ghost use Rattle.std.specs.List.{flat_map};
    ghost use Rattle.cell_core.specs.declared.cell.Cell.{Cell};
    ghost use Rattle.bat_core.specs.Chunks.{held_cells, AreFull};

    ghost Value = { List Cell };

    ghost view = { λ p. flat_map held_cells p.chunks.items };

    ghost invariant = { λ p. AreFull held_cells 4096 p.chunks.items × (length p.chunks.items < 2 ^ 47) };
}

impl Pile {
    /// The pile without chunks.
    pub fn new(alloc: Global) -> Pile
        ensures { result ≡ [] }
    {
        Pile {
            chunks: Vec::new(alloc),
        }
    }

    /// How many cells there are.
    pub fn len(&self) -> usize
        ensures { result ≡ length self.now }
    {
        CHUNK * self.chunks.len()
    }

    /// The cells from a place on, as far as they lie together.
    pub fn run(&self, from: usize) -> Part<'_>
        requires { from < length self.now }
        ensures some { 0 < length (part_cells result) }
        ensures cells { take (from + length (part_cells result)) self.now ≡ take from self.now ++ part_cells result }
    {
        let chunk = &self.chunks[from / CHUNK];
        chunk.part(from % CHUNK)
    }

    /// Adds a full chunk at the end. Where memory runs out, the chunk is returned.
    pub fn add(&mut self, alloc: Global, chunk: Chunk) -> Result<(), Chunk>
        requires { length (chunk_cells chunk) ≡ CHUNK }
        ensures ok { OnOk result (self.new ≡ self.old ++ chunk_cells chunk) }
        ensures err { OnErr result (self.new ≡ self.old) }
        ensures returned { IfErr result (λ back. back ≡ chunk) }
    {
        if self.chunks.len() >= MOST_CHUNKS || self.chunks.reserve(1).is_err() {
            return Err(chunk);
        }
        match Arc::new(alloc, chunk) {
            Ok(shared) => match self.chunks.push(shared) {
                Ok(()) => Ok(()),
                Err(_) => unreachable!(),
            },
            Err(failed) => Err(failed.value),
        }
    }

    /// Adds a full chunk at the end, and shares it.
    pub fn add_shared(&mut self, chunk: &Arc<Chunk>) -> Result<(), Memory>
        requires { length (held_cells chunk.now) ≡ CHUNK }
        ensures ok { OnOk result (self.new ≡ self.old ++ held_cells chunk.now) }
        ensures err { OnErr result (self.new ≡ self.old) }
    {
        if self.chunks.len() >= MOST_CHUNKS {
            return Err(Memory);
        }
        let shared = Arc::try_clone(chunk)?;
        self.chunks.push(shared)?;
        Ok(())
    }

    /// The same cells, in chunks that both share.
    pub fn share(&self, alloc: Global) -> Result<Pile, Memory>
        ensures { IfOk result (λ pile. pile ≡ self.now) }
    {
        let chunks = share_chunks(alloc, &self.chunks)?;
        Ok(Pile { chunks })
    }
}

/// The most chunks of a pile.
const MOST_CHUNKS: usize = (1 << 47) - 1;

/// Equal pointers to the same chunks.
fn share_chunks(alloc: Global, chunks: &[Arc<Chunk>]) -> Result<Vec<Arc<Chunk>>, Memory>
    ensures { IfOk result (λ copy. map held_cells copy.items ≡ map held_cells chunks.now) }
{
    let mut copy = Vec::with_capacity(alloc, chunks.len())?;
    'chunks: for chunk in chunks {
        copy.push(Arc::try_clone(chunk)?)?;
    }
    Ok(copy)
}
