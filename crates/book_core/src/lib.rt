//! The book: all that the sessions of a run share, and the log of what they did to it.
//!
//! A `Book` has the tables, the pool and the totals. Contracts see its options and its log alone:
//! the rest is the fold of the log (`run_log`). The answer of a call therefore follows from the
//! options and the events before it. Each step of a session adds exactly one event; where memory
//! runs out it adds nothing, and the book is as before. In the hall (`turn_hall`) a book stands for
//! its log, whose entries name their sessions.
#![tactic(auto)]

mod admit;
mod begin;
mod book;
mod events;
mod logged;
mod planning;
mod write;

pub use begin::Begun;
pub use book::Book;
