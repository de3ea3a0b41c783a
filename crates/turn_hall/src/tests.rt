//! Threads that write notes into one hall.
ghost use Rattle.std.specs.Prelude.{◌≡◌, ◌^◌, ◌<◌, [], ◌∷◌, ◌++◌, All, IfOk, IsTrue, false, vec_len};
ghost use Rattle.turn_hall.specs.Passes.{IsPassOf, pass_number, split_count, IsFree, HasAllJoined};

use crate::{Hall, Logged, Pass};
use cell_core::Memory;
use std::alloc::{AllocError, Global};
use std::sync::Wait;
use std::test::Fail;
use std::thread;
use std::thread::Threads;

/// How often a writer takes a turn to write.
const ROUNDS: u32 = 6;

/// How often a writer looks for the note of another.
const MOST_LOOKS: u32 = 100_000_000;

/// A note by the pass with this number.
#[derive(Clone, Copy, PartialEq, Eq)]
struct Note {
    by: u32,
    text: u32,
}

/// All notes so far.
#[derive(Drop)]
struct Notes {
    notes: Vec<Note>,
    ghost bounded: { vec_len notes < 2 ^ 60 },
}

impl Logged for Notes {
    type Entry = Note;

    ghost entries = { λ n. n.notes.items };

    ghost author = { λ e. e.by };

    fn count(&self) -> u64 {
        self.notes.len() as u64
    }
}

impl Notes {
    fn new(alloc: Global) -> Notes
        ensures { result.notes.items ≡ [] }
    {
        Notes {
            notes: Vec::new(alloc),
        }
    }

    /// Adds a note, and returns whether there was room for it.
    fn add(&mut self, note: Note) -> bool
        ensures added { IsTrue result → self.new.notes.items ≡ self.old.notes.items ++ note ∷ [] }
        ensures same { result ≡ false → self.new.notes.items ≡ self.old.notes.items }
    {
        if self.notes.len() >= 1000 {
            return false;
        }
        self.notes.push(note).is_ok()
    }

    fn has(&self, number: u32) -> bool {
        self.notes.iter().any(|note| note.by == number)
    }
}

/// A pass with its number, and whether it met the other that it looks for.
#[derive(Drop)]
struct Writer {
    pass: Pass<Notes>,
    number: u32,
    looks_for: Option<u32>,
    met: bool,
    ghost ready: { IsFree pass × (pass_number pass ≡ number) },
}

impl Writer {
    fn new(pass: Pass<Notes>, number: u32, looks_for: Option<u32>) -> Writer
        requires { IsFree pass × (pass_number pass ≡ number) }
        ensures { result.pass ≡ pass }
    {
        Writer {
            pass,
            number,
            looks_for,
            met: false,
        }
    }
}

/// Takes a turn, and writes the note or gives up.
fn write_note<R: Wait>(rt: &R, hall: &Hall<Notes>, pass: &mut Pass<Notes>, note: Note)
    requires ours { IsPassOf hall.now pass.old × IsFree pass.old }
    requires number { pass_number pass.old ≡ note.by }
    ensures ours { IsPassOf hall.now pass.new × IsFree pass.new }
    ensures number { pass_number pass.new ≡ pass_number pass.old }
{
    let mut turn = hall.turn(rt, pass);
    if note.text % 3 < 2 && turn.value().add(note) {
        hall.leave(turn, pass);
    } else {
        hall.give_up(turn, pass);
    }
}

/// Takes turns until there is a note by this number, and returns whether one came.
fn meets<R: Wait>(rt: &R, hall: &Hall<Notes>, pass: &mut Pass<Notes>, number: u32) -> bool
    requires ours { IsPassOf hall.now pass.old × IsFree pass.old }
    ensures ours { IsPassOf hall.now pass.new × IsFree pass.new }
    ensures number { pass_number pass.new ≡ pass_number pass.old }
{
    'looks: for _ in 0..MOST_LOOKS {
        let mut turn = hall.turn(rt, pass);
        let found = turn.value().has(number);
        hall.give_up(turn, pass);
        if found {
            return true;
        }
        thread::yield_now();
    }
    false
}

/// Writes all notes of one writer.
fn write_notes<R: Wait>(rt: &R, hall: &Hall<Notes>, writer: Writer) -> Writer
    requires { IsPassOf hall.now writer.pass }
    ensures { IsPassOf hall.now result.pass }
{
    let Writer {
        mut pass,
        number,
        looks_for,
        met: _,
    } = writer;
    'writes: for text in 0..ROUNDS {
        write_note(rt, hall, &mut pass, Note { by: number, text });
    }
    let mut writer = Writer::new(pass, number, looks_for);
    if let Some(other) = looks_for {
        writer.met = meets(rt, hall, &mut writer.pass, other);
    }
    writer
}

/// A thread for each writer.
fn write_all<R: Threads + Wait + Sync>(
    rt: &R,
    hall: &Hall<Notes>,
    writers: Vec<Writer>,
) -> Result<Vec<Writer>, AllocError>
    requires { All (λ w. IsPassOf hall.now w.pass) writers.items }
    ensures count { IfOk result (λ done. vec_len done ≡ vec_len writers) }
    ensures ours { IfOk result (λ done. All (λ w. IsPassOf hall.now w.pass) done.items) }
{
    thread::map_vec(rt, writers, &|writer| write_notes(rt, hall, writer))
}

/// Splits a pass for each writer.
fn split_all(
    alloc: Global,
    hall: &Hall<Notes>,
    first: &mut Pass<Notes>,
    count: u32,
    looks_for: &[Option<u32>],
) -> Result<Vec<Writer>, AllocError>
    requires ours { IsPassOf hall.now first.old × IsFree first.old }
    requires number { pass_number first.old ≡ 0 }
    requires alone { split_count first.old ≡ 0 }
    requires room { count < 1000 }
    ensures ours { IsPassOf hall.now first.new × IsFree first.new }
    ensures number { pass_number first.new ≡ 0 }
    ensures split { IfOk result (λ writers. split_count first.new ≡ vec_len writers) }
    ensures writers { IfOk result (λ writers. All (λ w. IsPassOf hall.now w.pass) writers.items) }
{
    let mut writers = Vec::new(alloc);
    'splits: for made in 0..count {
        let Ok(pass) = hall.split(alloc, first) else {
            return Err(AllocError);
        };
        writers.push(Writer::new(
            pass,
            made + 1,
            looks_for.get(made as usize).copied().flatten(),
        ))?;
    }
    Ok(writers)
}

/// Joins the writers, the last one first, and returns whether each came back in its place.
fn join_all(hall: &Hall<Notes>, first: &mut Pass<Notes>, mut writers: Vec<Writer>) -> bool
    requires ours { IsPassOf hall.now first.old × IsFree first.old }
    requires number { pass_number first.old ≡ 0 }
    requires split { split_count first.old ≡ vec_len writers }
    requires writers { All (λ w. IsPassOf hall.now w.pass) writers.items }
    ensures ours { IsPassOf hall.now first.new × IsFree first.new }
    ensures number { pass_number first.new ≡ 0 }
    ensures joined { IsTrue result → HasAllJoined first.new }
{
    'joins: while let Some(writer) = writers.pop() {
        let Writer {
            pass,
            number,
            looks_for,
            met,
        } = writer;
        if number as usize != writers.len() + 1 || looks_for.is_some() != met {
            return false;
        }
        hall.join(first, pass);
    }
    true
}

/// The notes that so many writers leave.
fn written<R: Threads + Wait + Sync>(
    rt: &R,
    alloc: Global,
    count: u32,
    looks_for: &[Option<u32>],
) -> Result<Option<Notes>, Memory>
    requires { count < 1000 }
{
    let (hall, mut first) = Hall::new(alloc, Notes::new(alloc))?;
    let writers = split_all(alloc, &hall, &mut first, count, looks_for)?;
    let writers = write_all(rt, &hall, writers)?;
    if !join_all(&hall, &mut first, writers) {
        return Ok(None);
    }
    Ok(Some(hall.close(first)))
}

#[test]
fn each_number_has_its_notes_in_order(rt: HostRuntime) -> Result<(), Fail> {
    for count in [2, 3, 7, 16] {
        let notes = written(&rt, rt.alloc(), count, &[])?.ok_or("a writer is missing")?;
        assert_eq!(rt; notes.notes.len(), 4 * count as usize);
        for made in 0..count {
            let mut texts = Vec::new(rt.alloc());
            for note in &notes.notes {
                if note.by == made + 1 {
                    texts.push(note.text)?;
                }
            }
            assert_eq!(rt; texts.as_slice(), [0, 1, 3, 4].as_slice(), "of {made}");
        }
    }
    Ok(())
}

#[test]
fn two_writers_run_side_by_side(rt: HostRuntime) -> Result<(), Fail> {
    let notes = written(&rt, rt.alloc(), 2, &[Some(2), Some(1)])?.ok_or("they never met")?;
    assert_eq!(rt; notes.notes.len(), 8);
    Ok(())
}
