// Replay: a journal's edits applied to a state, record by record, as if the calls were made singly.
ghost use Rattle.std.specs.Prelude.{◌≡◌, length};
ghost use Rattle.file.specs.States.{edited};
ghost use Rattle.file.specs.Clauses.{state_answer};
ghost use Rattle.journal.specs.Journals.{replayed};
ghost use Rattle.journal.specs.Walks.{edit_taken};
ghost use Rattle.journal.specs.Clauses.{edit_of, InsideEdit, replay_answer};

use super::causes::Cause;
use super::records::Edit;
use super::walking::{TakesEdits, Walk};
use field::multiplying::Count;
use file::State;

// What replay answers: the products that it counted, and where it stopped.
#[derive(Clone, Copy)]
pub struct Replayed {
    pub count: u64,
    pub offset: u64,
    pub answer: Result<(), Cause>,
}

// Applies a journal's records to a state, in order, until one is refused. State and count are those of the records before it, and the
// offset is its first byte; where all are done, the journal's length. Refused with 2 where the state's length passes 2^61 - 1 and with 10 where
// the journal passes 2^40 bytes, both at offset 0; then for each record with 10 where fewer bytes remain than it needs, with 11 where its
// kind is none of the five, with 12 where it is no change and its place is not 0, and as the edit itself is refused.
pub fn replay(state: &mut State, journal: &[u8]) -> Replayed
    ensures { replay_answer state.new result ≡ replayed state.old journal.now }
{
    let mut walk = Walk::new(journal);
    let answer = walk.run(state);
    Replayed {
        count: walk.total,
        offset: walk.reader.place as u64,
        answer,
    }
}

impl TakesEdits for State {
    ghost taken = { edit_taken };

    ghost length_of = { λ state. state.n };

    fn length(&self) -> u64 {
        self.n
    }

    // It adds the edit's count.
    fn take(&mut self, journal: &[u8], edit: Edit) -> Result<u64, file::Cause> {
        let products = apply(self, journal, edit)?;
        Ok(products.number())
    }
}

// One record's edit of a state: its call, on the bytes of its spans. The requires: they lie in the journal.
fn apply(state: &mut State, journal: &[u8], edit: Edit) -> Result<Count, file::Cause>
    requires { InsideEdit (length journal.now) edit }
    ensures { state_answer state.new result ≡ edited state.old (edit_of journal.now edit) }
{
    match edit {
        Edit::Change { p, old, new } => state.change(p, old.of(journal), new.of(journal)),
        Edit::Append(given) => state.append(given.of(journal)),
        Edit::Prepend(given) => state.prepend(given.of(journal)),
        Edit::DropFront(given) => state.drop_front(given.of(journal)),
        Edit::CutTail(given) => state.cut_tail(given.of(journal)),
    }
}
