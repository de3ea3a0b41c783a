//! Tests of MAL: texts that are read and printed, plans before and after each optimiser, and marks,
//! against the output of an independent implementation.
#![tactic(auto)]

#[cfg(test)]
mod tests;
#[cfg(test)]
mod texts;
