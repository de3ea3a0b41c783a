//! The hall and its passes.
ghost use Rattle.std.specs.Prelude.{◌≡◌, ℕ, ◌+◌, ◌^◌, ◌-◌, ◌<◌, [], ◌∷◌, ◌++◌, IfOk, IsOk};
ghost use Rattle.turn_hall.specs.Entries.{StartsWith, entries_by, longer};
ghost use Rattle.turn_hall.specs.Turns.{turn_value};

use crate::logged::Logged;
use crate::rule::{HallRule, VALUE};
use crate::turn::Turn;
use crate::view::View;
use crate::waiters::{Waiters, Wake};
use atomic_table::{Seat, Table};
use cell_core::Memory;
use std::alloc::Global;
use std::sync::Wait;

/// A value that many threads change, one turn after another.
#[derive(Drop)]
pub struct Hall<V: Logged> {
    pub(crate) table: Table<Option<V>, View<V::Entry>, (), HallRule<V>, Global>,
    pub(crate) waiters: Waiters,
    ghost sized: { (table.shared.table_id.words ≡ 3) × (table.shared.table_id.slots ≡ 1) },
}

/// The right to take turns in one hall, under one number. It has no bytes. Dropping it during its
/// turn would stop its hall for good.
#[derive(Drop)]
pub struct Pass<V: Logged> {
    pub(crate) seat: Seat<Option<V>, View<V::Entry>>,
}

impl<V: Logged> Hall<V> {
    ghost use Rattle.turn_hall.specs.Passes.{IsPassOf, pass_number, seen_by, own_entries, split_count, joined_passes, IsFree, HasTurn, KeepsPlace, AddsOne, HasAllJoined, entries_under};

    /// A hall round a value that stands for no entry, and its first pass, which has number 0.
    pub fn new(alloc: Global, value: V) -> Result<(Hall<V>, Pass<V>), Memory>
    where
        V: Drop,
        requires { V.entries value ≡ [] }
        ensures hall { IfOk result (λ made. IsPassOf made.0 made.1) }
        ensures number { IfOk result (λ made. pass_number made.1 ≡ 0) }
        ensures seen { IfOk result (λ made. seen_by made.1 ≡ []) }
        ensures own { IfOk result (λ made. own_entries made.1 ≡ []) }
        ensures alone { IfOk result (λ made. (split_count made.1 ≡ 0) × (joined_passes made.1 ≡ [])) }
        ensures free { IfOk result (λ made. IsFree made.1) }
    {
        let mut slots = Vec::new(alloc);
        slots.push(Some(value))?;
        match Table::new(alloc, &[0, 0, 0], slots, &()) {
            Ok((table, seat)) => {
                let waiters = Waiters::new();
                Ok((Hall { table, waiters }, Pass { seat }))
            }
            Err(_refused) => Err(Memory),
        }
    }

    /// Splits a pass from the first one. It has the next number, has seen as much, and owns no
    /// entry. A split takes no memory, so it succeeds.
    pub fn split(&self, _alloc: Global, pass: &mut Pass<V>) -> Result<Pass<V>, Memory>
        requires hall { IsPassOf self.now pass.old }
        requires free { IsFree pass.old }
        requires first { pass_number pass.old ≡ 0 }
        requires room { split_count pass.old < 2 ^ 32 - 1 }
        ensures succeeds { IsOk result }
        ensures hall { IfOk result (λ other. IsPassOf self.now other) }
        ensures free { IfOk result (λ other. IsFree other) }
        ensures number { IfOk result (λ other. pass_number other ≡ split_count pass.old + 1) }
        ensures seen { IfOk result (λ other. seen_by other ≡ seen_by pass.old) }
        ensures own { IfOk result (λ other. own_entries other ≡ []) }

        // The first pass counts one split more, and is else as before.
        ensures kept { IsPassOf self.now pass.new × IsFree pass.new }
        ensures kept_number { pass_number pass.new ≡ pass_number pass.old }
        ensures counted { split_count pass.new ≡ split_count pass.old + 1 }
        ensures kept_joined { joined_passes pass.new ≡ joined_passes pass.old }
        ensures kept_seen { seen_by pass.new ≡ seen_by pass.old }
        ensures kept_own { own_entries pass.new ≡ own_entries pass.old }
    {
        Ok(self.split_off(pass))
    }

    /// Waits until the pass has the turn. The value's list begins with all that the pass has seen.
    pub fn turn<R: Wait>(&self, rt: &R, pass: &mut Pass<V>) -> Turn<'_, V>
        requires hall { IsPassOf self.now pass.old }
        requires free { IsFree pass.old }
        ensures hall { IsPassOf self.now pass.new }
        ensures turn { HasTurn pass.new }
        ensures begins { StartsWith (V.entries (turn_value result)) (seen_by pass.old) }
        ensures own { entries_by V.author (pass_number pass.old) (V.entries (turn_value result)) ≡ own_entries pass.old }
        ensures seen { seen_by pass.new ≡ V.entries (turn_value result) }
        ensures kept_own { own_entries pass.new ≡ own_entries pass.old }
        ensures kept_place { KeepsPlace pass.old pass.new }
    {
        let mut wake = self.wait(rt);
        let ticket = self.draw(pass);
        'watches: for _ in rt.forever() {
            let served = self.served();
            if self.watch(pass, ticket) {
                self.waiters.leaves(&wake);
                return Turn::new(self.take_value(pass));
            }
            if self.waiters.watched(&mut wake) {
                self.sleep(rt, served);
            }
        }
        unreachable!()
    }

    /// Waits until no pass has the turn or a ticket for it, as far as one read shows, or until it
    /// has lasted long. A pass that waits here delays no other: a running pass takes its turn before
    /// a sleeping one.
    fn wait<R: Wait>(&self, rt: &R) -> Wake {
        let mut wake = Wake::new();
        'looks: for _ in rt.forever() {
            let ticket = self.served();
            if self.is_next(ticket) || wake.is_long() {
                return wake;
            }
            if self.waiters.looked(&mut wake) {
                self.sleep(rt, ticket);
                self.waiters.slept(&mut wake);
            }
        }
        unreachable!()
    }

    /// Ends a turn that added one entry, which names the pass.
    pub fn leave(&self, turn: Turn<'_, V>, pass: &mut Pass<V>)
        requires hall { IsPassOf self.now pass.old }
        requires turn { HasTurn pass.old }
        requires added { AddsOne V.author pass.old (V.entries (turn_value turn)) }
        ensures hall { IsPassOf self.now pass.new }
        ensures free { IsFree pass.new }
        ensures seen { seen_by pass.new ≡ V.entries (turn_value turn.entry) }
        ensures one_more { AddsOne V.author pass.old (seen_by pass.new) }
        ensures own { (e : V.Entry) → V.entries (turn_value turn.entry) ≡ seen_by pass.old ++ e ∷ [] → own_entries pass.new ≡ own_entries pass.old ++ e ∷ [] }
        ensures kept_place { KeepsPlace pass.old pass.new }
    {
        let value = turn.into_value();
        let count = value.count();
        self.put_back(pass, value);
        self.publish(pass, count);
        self.pass_on(pass);
    }

    /// Ends a turn that added nothing.
    pub fn give_up(&self, turn: Turn<'_, V>, pass: &mut Pass<V>)
        requires hall { IsPassOf self.now pass.old }
        requires turn { HasTurn pass.old }
        requires same { V.entries (turn_value turn) ≡ seen_by pass.old }
        ensures hall { IsPassOf self.now pass.new }
        ensures free { IsFree pass.new }
        ensures seen { seen_by pass.new ≡ seen_by pass.old }
        ensures own { own_entries pass.new ≡ own_entries pass.old }
        ensures kept_place { KeepsPlace pass.old pass.new }
    {
        self.put_back(pass, turn.into_value());
        self.pass_on(pass);
    }

    /// Joins a pass to the first one, which keeps its number and its own entries.
    pub fn join(&self, pass: &mut Pass<V>, other: Pass<V>)
        requires hall { IsPassOf self.now pass.old × IsPassOf self.now other }
        requires free { IsFree pass.old × IsFree other }
        requires first { pass_number pass.old ≡ 0 }
        ensures hall { IsPassOf self.now pass.new }
        ensures free { IsFree pass.new }
        ensures seen { seen_by pass.new ≡ longer (seen_by pass.old) (seen_by other) }
        ensures begins { StartsWith (seen_by pass.new) (seen_by pass.old) × StartsWith (seen_by pass.new) (seen_by other) }
        ensures joined { joined_passes pass.new ≡ (pass_number other, own_entries other) ∷ joined_passes pass.old }
        ensures kept_number { pass_number pass.new ≡ pass_number pass.old }
        ensures kept_splits { split_count pass.new ≡ split_count pass.old }
        ensures kept_own { own_entries pass.new ≡ own_entries pass.old }
    {
        self.take_in(pass, other);
        self.compare(pass);
    }

    /// Ends the hall, once each pass that was split from the first one was joined to it.
    pub fn close(self, pass: Pass<V>) -> V
        requires hall { IsPassOf self pass }
        requires free { IsFree pass }
        requires first { pass_number pass ≡ 0 }
        requires all { HasAllJoined pass }
        ensures begins { StartsWith (V.entries result) (seen_by pass) }
        ensures each { (number : ℕ) → entries_by V.author number (V.entries result) ≡ entries_under pass number }
    {
        let Hall { table, waiters: _ } = self;
        let Pass { seat } = pass;
        let mut closed = table.close_with(seat);
        let value = closed.take(VALUE).unwrap();
        closed.free();
        value
    }
}
