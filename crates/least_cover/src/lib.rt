//! The cheapest way to cover a range by the ranges of pooled selections.
//!
//! It builds on `cell_core` for cuts and spans, and on `subsume` for pieces. A cover is some of the
//! spans, which together cover a whole target, and its cost is their rows. A chain goes from a
//! target's low to its high, span by span. The chosen one costs least; of several such it is the
//! shortest, and of several of these the one whose places come first.
//!
//! `cheapest` finds it, with a certificate: numbers which show that no cover costs less, as
//! `certificates_bound` says. `one_chosen` says that one chain is chosen and that chains are
//! covers. `chosen_is_function` and `cheapest_cuts_up` state it, and the pieces that it cuts out of
//! the target, as functions.
//!
//! Inside, spans are solved one after the other (`solve`), those first that reach farthest
//! (`order`). The solved ones wait in a queue (`queue`), the nearest last. Then the chain is listed
//! (`chain`) and its stops are numbered (`labels`).
#![tactic(auto)]

mod best;
mod chain;
mod labels;
mod laws;
mod least;
mod order;
mod queue;
mod solve;

pub use laws::{certificates_bound, cheapest_cuts_up, chosen_is_function, one_chosen};
pub use least::{MOST_SPANS, cheapest};
