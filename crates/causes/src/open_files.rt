ghost use Rattle.causes.specs.InMemory.{bytes_at, bytes_of_name, files_of, place_in};
ghost use Rattle.std.specs.Io.KnownBytes.{Consumes, IsAtEnd};
ghost use Rattle.std.specs.Prelude.{◌≡◌, ◌<◌, ◌≤◌, ◌↔◌, length, take, IsSome, IsNone, IsTrue, None, Some, [], bytes_eq, position};
ghost use Rattle.std.specs.Bool.{OnFalse, OnTrue};

use cell_core::Word;
use std::marker::Model;

/// Named files in memory, of which one at a time is read from its first byte on.
#[derive(Drop)]
pub struct OpenFiles {
    files: Vec<(Word, Vec<u8>)>,
    place: Option<ReadPlace>,
}

/// How much of which file was read. A file that isn't there has no bytes.
#[derive(Clone, Copy)]
struct ReadPlace {
    file: usize,
    done: usize,
}

impl Model for OpenFiles {
    ghost use Rattle.causes.specs.InMemory.{Source, bytes_at, files_of};
    ghost use Rattle.std.specs.Prelude.{◌≤◌, drop, length, option_map, IfSome};

    ghost Value = { Source };

    ghost view = { λ f. let files = files_of f.files.items in record {
      files = files;
      started = option_map (λ place. place.file) f.place;
      remaining = option_map (λ place. drop place.done (bytes_at files place.file)) f.place;
    } };

    ghost invariant = { λ f. let files = files_of f.files.items in
        IfSome f.place (λ place. place.done ≤ length (bytes_at files place.file)) };
}

impl OpenFiles {
    /// These files, none of them started.
    pub fn new(files: Vec<(Word, Vec<u8>)>) -> OpenFiles
        ensures files { result.files ≡ files_of files.items }
        ensures started { result.started ≡ None }
        ensures remaining { result.remaining ≡ None }
    {
        OpenFiles { files, place: None }
    }

    /// Starts the first file with that name, and returns whether there is one.
    pub fn open(&mut self, name: &str) -> bool
        ensures found { IsTrue result ↔ IsSome (bytes_of_name self.old.files name.now) }
        ensures started { OnTrue result (self.new.started ≡ place_in self.old.files name.now) }
        ensures begins { OnTrue result
            (self.new.remaining ≡ bytes_of_name self.old.files name.now) }
        ensures stays { OnFalse result (self.new.started ≡ self.old.started) }
        ensures absent { OnFalse result (self.new.remaining ≡ self.old.remaining) }
        ensures files { self.new.files ≡ self.old.files }
    {
        match place_of(&self.files, name) {
            Some(file) => {
                self.place = Some(ReadPlace { file, done: 0 });
                true
            }
            None => false,
        }
    }

    /// The place of the first file with that name.
    pub fn place_of(&self, name: &str) -> Option<usize>
        ensures { result ≡ place_in self.now.files name.now }
    {
        place_of(&self.files, name)
    }

    /// The place of the file that was started.
    pub fn started(&self) -> Option<usize>
        ensures { result ≡ self.now.started }
    {
        match self.place {
            Some(place) => Some(place.file),
            None => None,
        }
    }

    /// Starts an empty text.
    pub fn open_empty(&mut self)
        ensures begins { self.new.remaining ≡ Some [] }
        ensures files { self.new.files ≡ self.old.files }
    {
        let file = self.files.len();
        self.place = Some(ReadPlace { file, done: 0 });
    }

    /// Moves the next bytes to the front of `buf`, and returns how many.
    pub fn read(&mut self, buf: &mut [u8]) -> usize
        requires { IsSome self.old.remaining }
        ensures bound { result ≤ length buf.new }
        ensures bytes { Consumes self.old.remaining self.new.remaining (take result buf.new) }
        ensures end { result ≡ 0 → 0 < length buf.new → IsAtEnd self.new.remaining }
        ensures still_started { IsSome self.new.remaining }
        ensures started { self.new.started ≡ self.old.started }
        ensures files { self.new.files ≡ self.old.files }
    {
        let place = self.place.unwrap();
        let rest = &bytes_of(&self.files, place.file)[place.done..];
        let count = rest.len().min(buf.len());
        buf[..count].copy_from_slice(&rest[..count]);
        let done = place.done + count;
        self.place = Some(ReadPlace { done, ..place });
        count
    }
}

/// The place of the first file with that name.
fn place_of(files: &[(Word, Vec<u8>)], name: &str) -> Option<usize>
    ensures { result ≡ position (λ file. bytes_eq file.0 name.now) files.now }
{
    files.iter().position(|file| file.0.text() == name)
}

/// The bytes of the file at a place, and none where there is no file.
fn bytes_of(files: &[(Word, Vec<u8>)], place: usize) -> &[u8]
    ensures { result.now ≡ bytes_at (files_of files.now) place }
{
    match files.get(place) {
        Some(file) => file.1.as_slice(),
        None => &[],
    }
}
