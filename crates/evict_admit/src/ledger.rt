ghost use Rattle.std.specs.Prelude.{◌≡◌, ◌≢◌, [], ◌∷◌, ◌++◌, ◌+◌, ◌-◌, ◌<◌, ◌≤◌, ◌^◌, length, slice_index, slice_set, OnOk, OnErr};

use cell_core::Memory;
use std::alloc::Global;
use std::marker::Model;

/// The credits of shapes, which are numbered from 1. Contracts see the credit that each new shape
/// starts with, the credits in the order of the numbers, and the room for further shapes.
#[derive(Drop)]
pub struct Ledger {
    start: u64,
    credits: Vec<u64>,
}

impl Model for Ledger {
    ghost use Rattle.evict_admit.specs.Credits.{Credits, credits_of};

    ghost Value = { Credits };

    ghost view = { λ l. credits_of l.start l.credits };
}

impl Ledger {
    /// Without shapes; those to come start with this credit. Takes no memory.
    pub fn new(alloc: Global, credits: u64) -> Ledger
        ensures start { result.start ≡ credits }
        ensures none { result.each ≡ [] }
    {
        Ledger {
            start: credits,
            credits: Vec::new(alloc),
        }
    }

    /// Makes room for at least so many further shapes. Where memory runs out, all is as it was.
    pub fn reserve(&mut self, shapes: u64) -> Result<(), Memory>
        ensures room { OnOk result (shapes ≤ self.new.room) }
        ensures start { self.new.start ≡ self.old.start }
        ensures each { self.new.each ≡ self.old.each }
        ensures err { OnErr result (self.new ≡ self.old) }
    {
        self.credits.reserve(shapes as usize)?;
        Ok(())
    }

    /// The next shape's number. Its credit is the one to start with.
    pub fn add(&mut self) -> u32
        requires room { 0 < self.old.room }
        requires few { length self.old.each < 2 ^ 30 }
        ensures number { result ≡ length self.old.each + 1 }
        ensures each { self.new.each ≡ self.old.each ++ self.old.start ∷ [] }
        ensures start { self.new.start ≡ self.old.start }
        ensures room { self.old.room ≤ self.new.room + 1 }
    {
        if self.credits.push(self.start).is_err() {
            unreachable!();
        }
        self.credits.len() as u32
    }

    /// A shape's credit.
    pub fn credit(&self, shape: u32) -> u64
        requires first { 0 < shape }
        requires last { shape ≤ length self.now.each }
        ensures { result ≡ slice_index self.now.each (shape - 1) }
    {
        self.credits[shape as usize - 1]
    }

    /// A shape's credit goes down by one.
    pub fn pay(&mut self, shape: u32)
        requires first { 0 < shape }
        requires last { shape ≤ length self.old.each }
        requires some { slice_index self.old.each (shape - 1) ≢ 0 }
        ensures each { self.new.each ≡ slice_set self.old.each (shape - 1) (slice_index self.old.each (shape - 1) - 1) }
        ensures start { self.new.start ≡ self.old.start }
        ensures room { self.new.room ≡ self.old.room }
    {
        self.credits[shape as usize - 1] -= 1;
    }

    /// A shape's credit goes up by one.
    pub fn back(&mut self, shape: u32)
        requires first { 0 < shape }
        requires last { shape ≤ length self.old.each }
        requires below { slice_index self.old.each (shape - 1) < self.old.start }
        ensures each { self.new.each ≡ slice_set self.old.each (shape - 1) (slice_index self.old.each (shape - 1) + 1) }
        ensures start { self.new.start ≡ self.old.start }
        ensures room { self.new.room ≡ self.old.room }
    {
        // It is read so that the credit is known to fit: it rises to the start at most.
        let _start = self.start;
        self.credits[shape as usize - 1] += 1;
    }
}
