//! Tests of small crates, a file for each family: scores and evictions of a pool, the keys of
//! results, spans and covers of a range, entries that come back in a write, and texts and files at
//! the edge of the program. Their tests share one crate, because the prover goes twice through a
//! crate with tests.
#![tactic(auto)]

#[cfg(test)]
mod edges;
#[cfg(test)]
mod evictions;
#[cfg(test)]
mod keys;
#[cfg(test)]
mod scorers;
#[cfg(test)]
mod scores;
#[cfg(test)]
mod spans;
#[cfg(test)]
mod writes;
