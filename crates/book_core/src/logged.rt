//! The book as a value in the hall, where it stands for its log.
ghost use Rattle.book_core.specs.BookView.{BookView};
ghost use Rattle.run_log.specs.declared.event.Event.{Event as EventSeen};

use crate::book::Book;
use run_log::Event;
use turn_hall::Logged;

impl Logged for Book {
    type Entry = Event;

    ghost entries = { λ (book : BookView). book.log };

    ghost author = { λ (event : EventSeen). event.session };

    fn count(&self) -> u64 {
        self.log.len() as u64
    }
}
