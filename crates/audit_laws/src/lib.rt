//! The law that a served run is honest.
//!
//! `sql_shell` defines what is printed of a run by the events of its log, with plans, keys and the
//! pool. `audit_definitions` defines an honest text by the lines that it has, with none of these. Where no
//! script holds an EXPLAIN, what is printed with `--events` is honest (`served_is_honest`). The call
//! computes nothing: its contract is the law of `specs/Laws`. No text is read back in the proof: the
//! lines are those of the events, and print as they do.
#![tactic(auto)]

mod laws;

pub use laws::served_is_honest;
