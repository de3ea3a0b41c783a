//! What the rule knows of a pass. No value of these types is ever made.
use std::collections::LinkedList;

/// The position of a pass in the queue. A ticket is a number that never wraps.
pub enum PassStage {
    /// It was joined to the first pass, and takes no step any more.
    Ended,
    /// It has no ticket.
    Free,
    /// It waits with this ticket.
    Waiting(u64),
    /// It has the turn, with this ticket.
    Serving(u64),
    /// It has the turn, and its entry is published.
    Published(u64),
}

/// What a pass knows.
pub struct View<E> {
    /// Its number, which is its place among the views.
    pub number: u64,
    /// Its position in the queue.
    pub stage: PassStage,
    /// The list that it has seen.
    pub seen: LinkedList<E>,
    /// Its own entries.
    pub own: LinkedList<E>,
    /// Of the first pass: how many passes were split from it.
    pub splits: u64,
    /// Of the first pass: the numbers of the passes that were joined to it, with their own entries.
    pub joined: LinkedList<(u64, LinkedList<E>)>,
    /// Of the first pass: what the pass that was joined last had seen.
    pub told: LinkedList<E>,
}
