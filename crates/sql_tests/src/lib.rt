//! Tests of the meaning of SQL: scripts that are read, checked and run, by their plain meaning and
//! by their plans, against the output of an independent implementation of the language; the plans
//! of random queries, printed and read again; and each other public call of `sql_definitions`,
//! `row_values`, `sql_meaning` and `sql_changes` once with enough memory.
#![tactic(auto)]

#[cfg(test)]
mod ample;
#[cfg(test)]
mod audit;
#[cfg(test)]
mod made;
#[cfg(test)]
mod plans;
#[cfg(test)]
mod queries;
#[cfg(test)]
mod run;
#[cfg(test)]
mod scripts;
#[cfg(test)]
mod tests;
