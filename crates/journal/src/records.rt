// A record of a journal, opened: one kind of edit with its own fields. Of the bytes that an edit names it holds where they stand in the
// journal.
ghost use Rattle.std.specs.Prelude.{◌≡◌, ℕ, ◌+◌, ◌≤◌, ◌<◌, ◌^◌, length, IfOk};
ghost use Rattle.refusals.specs.Refusals.{first};
ghost use Rattle.journal.specs.Records.{head_bytes, head_causes};
ghost use Rattle.journal.specs.Clauses.{answer_refusal, bytes_in, body_of, spans_of, KindOf, HeadAt, OpenedAt};

use super::causes::Cause;
use field::packing::number_at;
use file::Kind;

// The bytes of a record's head.
const HEAD_BYTES: usize = 12;

// A head's first word is its kind, of 3 bits, and then its place, of 61: what the kind is multiplied by.
const KIND: u64 = 0x2000_0000_0000_0000;

// Where bytes of an edit stand in the journal: size bytes from a place on. Document 01's form names a span struct, so it is places and no slice.
#[derive(Clone, Copy)]
pub struct Span {
    pub at: usize,
    pub size: usize,
}

// The five edits.
#[derive(Clone, Copy)]
pub enum Edit {
    Change { p: u64, old: Span, new: Span },
    Append(Span),
    Prepend(Span),
    DropFront(Span),
    CutTail(Span),
}

// What stands at a place of a journal: a record's edit with the place behind it, a record that does not open, or the journal's end. Document 01's
// form holds the edit in the opening answer's enum, so it is no Option in a Result.
#[derive(Clone, Copy)]
pub enum Opened {
    Record(Edit, usize),
    Refused(Cause),
    End,
}

// A record's head: its kind, where it is one of the five, its place and the length of its bytes.
#[derive(Clone, Copy)]
pub struct Head {
    pub kind: Option<Kind>,
    pub p: u64,
    pub size: u32,
}

impl Span {
    // Its bytes. It serves the crate. The requires: they lie in the journal.
    pub fn of<'a>(self, journal: &'a [u8]) -> &'a [u8]
        requires { self.at + self.size ≤ length journal.now }
        ensures { result.now ≡ bytes_in journal.now self }
    {
        &journal[self.at..self.at + self.size]
    }
}

impl Head {
    // The head of the record at a place. The requires: the head lies in the journal.
    fn read(journal: &[u8], at: usize) -> Head
        requires { at + head_bytes ≤ length journal.now }
        ensures { HeadAt journal.now at result }
    {
        let word = number_at(0, journal, at, 8);
        let size = number_at(0, journal, at + 8, 4) as u32;
        Head {
            kind: kind_named(word / KIND),
            p: word % KIND,
            size,
        }
    }

    // How many bytes stand behind it: of a change its old and its new ones.
    fn body(self) -> usize
        ensures { result ≡ body_of self.kind self.size }
    {
        let size = self.size as usize;
        match self.kind {
            Some(Kind::Change) => 2 * size,
            _ => size,
        }
    }

    // Its kind, or its record's refusal, where left bytes stand behind it.
    fn tested(self, left: usize) -> Result<Kind, Cause>
        ensures refusal { (n : ℕ) → KindOf n self.kind → answer_refusal result ≡ first (head_causes n self.p self.size left) }
        ensures kind { IfOk result (λ kind. self.kind ≡ Some kind) }
    {
        if left < self.body() {
            return Err(Cause::JournalLength);
        }
        let Some(kind) = self.kind else {
            return Err(Cause::UnknownKind);
        };
        match kind {
            Kind::Change => Ok(kind),
            _ => {
                if self.p != 0 {
                    return Err(Cause::PlaceOutsideChange);
                }
                Ok(kind)
            }
        }
    }

    // The edit of its record, of a kind, whose bytes stand from a place on. The requires: places are numbers of the machine.
    fn edit(self, kind: Kind, start: usize) -> Edit
        requires { start + self.size < 2 ^ 64 }
        ensures { result ≡ spans_of kind self.p self.size start }
    {
        let size = self.size as usize;
        let given = Span { at: start, size };
        match kind {
            Kind::Change => Edit::Change {
                p: self.p,
                old: given,
                new: Span {
                    at: start + size,
                    size,
                },
            },
            Kind::Append => Edit::Append(given),
            Kind::Prepend => Edit::Prepend(given),
            Kind::DropFront => Edit::DropFront(given),
            Kind::CutTail => Edit::CutTail(given),
        }
    }
}

// The kind of a number, where it is one of the five.
#[tactic(auto, unfolding(crate::specs::Records::kind_number))]
fn kind_named(number: u64) -> Option<Kind>
    ensures { KindOf number result }
{
    match number {
        1 => Some(Kind::Change),
        2 => Some(Kind::Append),
        3 => Some(Kind::Prepend),
        4 => Some(Kind::DropFront),
        5 => Some(Kind::CutTail),
        _ => None,
    }
}

// Opens what stands at a place: the work behind the reader.
pub fn open_at(journal: &[u8], at: usize) -> Opened
    ensures { OpenedAt journal.now at result }
{
    if journal.len() <= at {
        return Opened::End;
    }
    let left = journal.len() - at;
    if left < HEAD_BYTES {
        return Opened::Refused(Cause::JournalLength);
    }
    let head = Head::read(journal, at);
    let start = at + HEAD_BYTES;
    match head.tested(left - HEAD_BYTES) {
        Ok(kind) => Opened::Record(head.edit(kind, start), start + head.body()),
        Err(cause) => Opened::Refused(cause),
    }
}
