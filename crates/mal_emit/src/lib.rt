//! Instructions emitted one after the other: what all translations into plans share.
//!
//! A translation is a pure definition: an emitter is a function on the instructions so far that
//! only adds at the end, and returns a result (`specs/Emitters.antt`). Each call here adds the
//! instructions of such a definition, and returns the number of the result, or the numbers of
//! several. Values over a database and types are found by one machine (`specs/Machines.antt`),
//! whose lemmas (`proofs/`) say what is known after the instructions, an overflow included.
#![tactic(auto)]

mod instruction;
mod operators;
mod phrases;

pub use instruction::emit;
pub use operators::{one, two};
pub use phrases::{counted, gather, selects};
