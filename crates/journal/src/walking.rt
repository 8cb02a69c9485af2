// A walk over a journal: a reader moves from record to record, and their edits are taken in turn. Replay and forecast are such walks, and differ in
// what takes the edits.
ghost use Rattle.std.specs.Prelude.{◌≡◌, ℕ, ◌+◌, ◌≤◌, length};
ghost use Rattle.file.specs.Edits as keeper;
ghost use Rattle.journal.specs.Journals.{replay_refusal};
ghost use Rattle.journal.specs.Walks.{Taken, walked};
ghost use Rattle.journal.specs.Clauses.{answer_refusal, edit_of, InsideEdit, taken_answer, walk_answer};

use super::causes::Cause;
use super::reader::Reader;
use super::records::{Edit, Opened};
use field::hashing::MAX_BYTES;

// The most bytes of a journal: 2^40.
const MAX_JOURNAL: u64 = 0x100_0000_0000;

// What takes a journal's edits in turn: a state, or lengths alone.
pub trait TakesEdits {
    // What an edit makes of it, its refusal or 0, and what it adds to the walk's total.
    ghost taken: { Self → keeper.Edit → Taken Self };

    // The length of its file in bytes.
    ghost length_of: { Self → ℕ };

    fn length(&self) -> u64
        ensures { result ≡ length_of self.now };

    // Takes a record's edit: what it adds to the total, which is few beside its bytes, or its refusal. The requires: its bytes lie in the journal.
    fn take(&mut self, journal: &[u8], edit: Edit) -> Result<u64, file::Cause>
        requires { InsideEdit (length journal.now) edit }
        ensures taken { taken_answer self.new result ≡ taken self.old (edit_of journal.now edit) }
        ensures few { (taken self.old (edit_of journal.now edit)).added
            ≤ length (keeper.given (edit_of journal.now edit)) + 128 };
}

// A walk over a journal: the reader, and what the edits that were taken add up to.
#[derive(Clone, Copy)]
pub struct Walk<'a> {
    pub reader: Reader<'a>,
    pub total: u64,
}

impl<'a> Walk<'a> {
    // A walk that begins. It serves the crate.
    pub fn new(journal: &'a [u8]) -> Walk<'a>
        ensures { (result.reader.journal ≡ journal.entry) × (result.reader.place ≡ 0) × (result.total ≡ 0) }
    {
        Walk {
            reader: Reader::new(journal),
            total: 0,
        }
    }

    // Takes a journal's edits in turn, to the first record that is refused: the total is of those before it, and the reader stands at its first byte;
    // where all are taken, at the journal's end. A journal that is refused as a whole is not walked. It serves the crate. The requires: the
    // walk begins.
    pub fn run<T: TakesEdits>(&mut self, taker: &mut T) -> Result<(), Cause>
        requires { (self.old.reader.place ≡ 0) × (self.old.total ≡ 0) }
        ensures { walk_answer taker.new self.new result
            ≡ walked T.taken (T.length_of taker.old) taker.old self.old.reader.journal.now }
    {
        replay_refusal(taker.length(), self.reader.journal)?;
        // No iterator of records: where an edit is refused, the reader still stands at its record.
        'records: loop {
            match self.reader.open() {
                Opened::End => return Ok(()),
                Opened::Refused(cause) => return Err(cause),
                Opened::Record(edit, next) => {
                    self.total += taker.take(self.reader.journal, edit)?;
                    self.reader.move_to(next);
                }
            }
        }
    }
}

// The refusal of a journal as a whole, for a file of n bytes.
fn replay_refusal(n: u64, journal: &[u8]) -> Result<(), Cause>
    ensures { answer_refusal result ≡ replay_refusal n journal.now }
{
    if n > MAX_BYTES {
        return Err(Cause::File(file::Cause::TooLong));
    }
    if journal.len() as u64 > MAX_JOURNAL {
        return Err(Cause::JournalLength);
    }
    Ok(())
}
