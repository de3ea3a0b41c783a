//! The hall: a value that many threads change, one turn after another, and a list that only grows.
//!
//! A value in the hall stands for a list of entries (`Logged`). A thread steps with a `Pass`, which
//! has a number. `Hall::turn` waits until the hall seems free, draws a ticket, waits until that is
//! served, and lends the value in a `Turn`. `leave` returns it with one entry more, and `give_up`
//! returns it as it was.
//!
//! It builds on `atomic_table`, on whose words and slot it takes its steps, on `crossbeam_utils`,
//! whose `Backoff` a waiting pass uses before it sleeps, and on `cell_core` for `Memory`.
//!
//! It promises, of any number of threads: at each turn the list begins with all that the pass has
//! seen, and the entries of it that name the pass are exactly the pass's own, in order and each
//! once; at the close this holds for every number. `docs/threads.md` states the rule and its steps.
//! Nothing is promised of progress: a call that waits need not return.
#![tactic(auto)]

mod hall;
mod logged;
mod rule;
mod steps;
#[cfg(test)]
mod tests;
mod turn;
mod view;
mod waiters;

pub use hall::{Hall, Pass};
pub use logged::Logged;
pub use turn::Turn;
