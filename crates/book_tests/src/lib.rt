//! Tests of the book and of its store: changes compared with the plain program, a snapshot that is
//! held while rows come, a table of the most rows, pooled results and counted events. Calls of the store
//! that no other test makes are made once with enough memory.
#![tactic(auto)]

#[cfg(test)]
mod ample;
#[cfg(test)]
mod beside;
#[cfg(test)]
mod full_table;
#[cfg(test)]
mod tests;
