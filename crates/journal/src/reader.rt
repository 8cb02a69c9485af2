// The reader: it stands at a place of the lent journal, opens what is there, and moves on. Its functions are thin over `open_at`. One reader moves
// through a whole journal (walking).
ghost use Rattle.std.specs.Prelude.{◌≡◌};
ghost use Rattle.journal.specs.Clauses.{OpenedAt};

use super::records::{Opened, open_at};

#[derive(Clone, Copy)]
pub struct Reader<'a> {
    pub journal: &'a [u8],
    pub place: usize,
}

impl<'a> Reader<'a> {
    // A reader at a journal's first byte. It serves the crate.
    pub fn new(journal: &'a [u8]) -> Reader<'a>
        ensures { (result.journal ≡ journal.entry) × (result.place ≡ 0) }
    {
        Reader { journal, place: 0 }
    }

    // Opens what stands where the reader stands. It serves the crate.
    pub fn open(&self) -> Opened
        ensures { OpenedAt self.now.journal.now self.now.place result }
    {
        open_at(self.journal, self.place)
    }

    // Moves to another place. It serves the crate.
    pub fn move_to(&mut self, place: usize)
        ensures { (self.new.journal ≡ self.old.journal) × (self.new.place ≡ place) }
    {
        self.place = place;
    }
}
