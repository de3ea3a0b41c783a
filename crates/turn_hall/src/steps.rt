//! The steps of a pass, one function for each kind. The calls of `hall.rt` are made of them.
ghost use Rattle.std.specs.Prelude.{◌≡◌, ◌≢◌, ◌^◌, ◌-◌, ◌<◌, [], ◌∷◌, length, true, false};
ghost use Rattle.turn_hall.specs.declared.view.PassStage.TheVariants.{Free, Serving};
ghost use Rattle.turn_hall.specs.Steps.{slot_entries, Begins, Draws, Publishes, PassesOn, Compares};
ghost use Rattle.turn_hall.specs.Views.{IsAtTurn, one_more, newcomer, joined_with};

use crate::hall::{Hall, Pass};
use crate::logged::Logged;
use crate::rule::{
    COUNT, Compare, DrawTicket, PassOn, Publish, SERVING, SplitJoin, TICKETS, VALUE, Watch,
};
use crate::waiters::Call;
use std::sync::Wait;
use std::time::Duration;

impl<V: Logged> Hall<V> {
    ghost use Rattle.turn_hall.specs.Passes.{IsPassOf, IsFree, AddsOne, Waits, HasValue, seen_by, pass_number, split_count};

    /// The ticket that is served at this moment.
    pub(crate) fn served(&self) -> u64 {
        self.table.shared.peek(SERVING)
    }

    /// Whether a ticket is the next one at this moment. A look is cheaper than to try and fail.
    pub(crate) fn is_next(&self, ticket: u64) -> bool {
        self.table.shared.peek(TICKETS) == ticket
    }

    /// Sleeps until the ticket that is served is another one, or for a millisecond.
    pub(crate) fn sleep<R: Wait>(&self, rt: &R, ticket: u64) {
        let longest = Duration::from_millis(1);
        self.table
            .shared
            .park_timeout(rt, SERVING, (ticket % (1 << 32)) as u32, longest);
    }

    /// Draws a ticket.
    pub(crate) fn draw(&self, pass: &mut Pass<V>) -> u64
        requires hall { IsPassOf self.now pass.old }
        requires free { IsFree pass.old }
        ensures hall { IsPassOf self.now pass.new }
        ensures drawn { Draws pass.old.seat.me result pass.new.seat.me }
    {
        self.table
            .shared
            .fetch_add::<DrawTicket>(&mut pass.seat, TICKETS, 1)
    }

    /// Watches the ticket that is served. Returns whether it is this one; then the turn begins.
    pub(crate) fn watch(&self, pass: &mut Pass<V>, ticket: u64) -> bool
        requires hall { IsPassOf self.now pass.old }
        requires waits { Waits ticket pass.old }
        ensures hall { IsPassOf self.now pass.new }
        ensures served { result ≡ true → Begins V.entries V.author pass.old.seat.me pass.new.seat.me }
        ensures whole { result ≡ true → HasValue V.entries pass.new }
        ensures later { result ≡ false → pass.new.seat.me ≡ pass.old.seat.me }
    {
        self.table.shared.load::<Watch<V>>(&mut pass.seat, SERVING) == ticket
    }

    /// Takes the value out of the slot.
    pub(crate) fn take_value(&self, pass: &mut Pass<V>) -> V
        requires hall { IsPassOf self.now pass.old }
        requires whole { HasValue V.entries pass.old }
        ensures hall { IsPassOf self.now pass.new }
        ensures value { V.entries result ≡ seen_by pass.old }
        ensures taken { pass.new.seat.me ≡ (pass.old.seat.me.0, (0, None) ∷ []) }
    {
        self.table
            .shared
            .exchange(&mut pass.seat, VALUE, None)
            .unwrap()
    }

    /// Puts a value back into the slot.
    pub(crate) fn put_back(&self, pass: &mut Pass<V>, value: V)
        requires hall { IsPassOf self.now pass.old }
        requires empty { pass.old.seat.me.1 ≡ (0, None) ∷ [] }
        ensures hall { IsPassOf self.now pass.new }
        ensures put { pass.new.seat.me ≡ (pass.old.seat.me.0, (0, Some value) ∷ []) }
    {
        let empty = self
            .table
            .shared
            .exchange(&mut pass.seat, VALUE, Some(value));
        let None = empty else { unreachable!() };
    }

    /// Publishes the count of a list with one entry more.
    pub(crate) fn publish(&self, pass: &mut Pass<V>, count: u64)
        requires hall { IsPassOf self.now pass.old }
        requires turn { (t : _) × (pass.old.seat.me.0.stage ≡ Serving t) }
        requires added { AddsOne V.author pass.old (slot_entries V.entries pass.old.seat.me.1) }
        requires count { count ≡ length (slot_entries V.entries pass.old.seat.me.1) }
        ensures hall { IsPassOf self.now pass.new }
        ensures published { Publishes V.entries pass.old.seat.me pass.new.seat.me }
    {
        self.table
            .shared
            .store::<Publish<V>>(&mut pass.seat, COUNT, count);
    }

    /// Passes the turn on, once the value in the slot is that of what the pass has seen. Wakes
    /// sleeping passes where none is awake to take the turn.
    pub(crate) fn pass_on(&self, pass: &mut Pass<V>)
        requires hall { IsPassOf self.now pass.old }
        requires turn { IsAtTurn pass.old.seat.me.0.stage }
        requires whole { HasValue V.entries pass.old }
        ensures hall { IsPassOf self.now pass.new }
        ensures passed { PassesOn pass.old.seat.me pass.new.seat.me }
    {
        self.table
            .shared
            .fetch_add::<PassOn>(&mut pass.seat, SERVING, 1);
        match self.waiters.to_call() {
            Call::Nobody => {}
            Call::One => self.table.shared.wake_one(SERVING),
            Call::All => self.table.shared.wake_all(SERVING),
        }
    }

    /// Splits a pass from the first one.
    pub(crate) fn split_off(&self, pass: &mut Pass<V>) -> Pass<V>
        requires hall { IsPassOf self.now pass.old }
        requires free { IsFree pass.old }
        requires first { pass_number pass.old ≡ 0 }
        requires room { split_count pass.old < 2 ^ 32 - 1 }
        ensures hall { IsPassOf self.now pass.new × IsPassOf self.now result }
        ensures first { pass.new.seat.me ≡ (one_more pass.old.seat.me.0, []) }
        ensures other { result.seat.me ≡ (newcomer pass.old.seat.me.0, []) }
    {
        let seat = self.table.shared.split_seat::<SplitJoin>(&mut pass.seat);
        Pass { seat }
    }

    /// Joins a pass to the first one.
    pub(crate) fn take_in(&self, pass: &mut Pass<V>, other: Pass<V>)
        requires hall { IsPassOf self.now pass.old × IsPassOf self.now other }
        requires free { IsFree pass.old × IsFree other }
        requires first { pass_number pass.old ≡ 0 }
        ensures hall { IsPassOf self.now pass.new }
        ensures joined { pass.new.seat.me ≡ (joined_with pass.old.seat.me.0 other.seat.me.0, []) }
    {
        let Pass { seat } = other;
        self.table
            .shared
            .join_seat::<SplitJoin>(&mut pass.seat, seat);
    }

    /// Compares what a pass has seen with what its `told` has.
    pub(crate) fn compare(&self, pass: &mut Pass<V>)
        requires hall { IsPassOf self.now pass.old }
        requires free { IsFree pass.old }
        ensures hall { IsPassOf self.now pass.new }
        ensures compared { Compares pass.old.seat.me pass.new.seat.me }
    {
        self.table.shared.load::<Compare>(&mut pass.seat, COUNT);
    }
}
