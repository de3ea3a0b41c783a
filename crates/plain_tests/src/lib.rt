//! Tests of the program beside the plain programs: sessions in threads that meet on one table, whose
//! replies and history are those of the log's order; a query that is held while its table goes; and a
//! large table that grows row by row under a pooled selection.
#![tactic(auto)]

#[cfg(test)]
mod tests;
