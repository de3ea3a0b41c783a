//! The rule of the hall's table, and what a pass learns by each kind of step.
ghost use Rattle.turn_hall.specs.Rule.{IsOrderly};
ghost use Rattle.turn_hall.specs.Steps.{Draws, Watches, Publishes, PassesOn, Compares};
ghost use Rattle.turn_hall.specs.Views.{first_view, one_more, newcomer, joined_with, ended_view};

use crate::logged::Logged;
use crate::view::View;
use atomic_table::{Join, Play, Split, TableRule};
use std::marker::PhantomData;

/// The word that counts the entries.
pub const COUNT: usize = 0;

/// The word with the next ticket.
pub const TICKETS: usize = 1;

/// The word with the ticket that is served.
pub const SERVING: usize = 2;

/// The slot with the value.
pub const VALUE: usize = 0;

/// The rule of the hall's table.
pub struct HallRule<V> {
    of: PhantomData<V>,
}

impl<V: Logged> TableRule<Option<V>, View<V::Entry>, ()> for HallRule<V> {
    ghost holds = { λ _. IsOrderly V.entries V.author };

    ghost first = { λ _. first_view };
}

/// To draw a ticket.
pub struct DrawTicket;

impl<V, E> Play<Option<V>, View<E>> for DrawTicket {
    ghost then = { λ _ before found after. Draws before found after };
}

/// To watch the ticket that is served.
pub struct Watch<V> {
    of: PhantomData<V>,
}

impl<V: Logged> Play<Option<V>, View<V::Entry>> for Watch<V> {
    ghost then = { λ _ before found after. Watches V.entries V.author before found after };
}

/// To publish the count of entries.
pub struct Publish<V> {
    of: PhantomData<V>,
}

impl<V: Logged> Play<Option<V>, View<V::Entry>> for Publish<V> {
    ghost then = { λ _ before _ after. Publishes V.entries before after };
}

/// To pass the turn on.
pub struct PassOn;

impl<V, E> Play<Option<V>, View<E>> for PassOn {
    ghost then = { λ _ before _ after. PassesOn before after };
}

/// To compare what was seen with what `told` has, after a join.
pub struct Compare;

impl<V, E> Play<Option<V>, View<E>> for Compare {
    ghost then = { λ _ before _ after. Compares before after };
}

/// To split a pass from the first one, and to join it again.
pub struct SplitJoin;

impl<E> Split<View<E>> for SplitJoin {
    ghost left = { one_more };

    ghost right = { newcomer };
}

impl<E> Join<View<E>> for SplitJoin {
    ghost both = { joined_with };

    ghost spent = { ended_view };
}
