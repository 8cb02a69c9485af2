// The five edits. What an edit does to lengths is measured first; the new sum, length and count are asked for, from the bytes and that shape;
// and then they are put into the state.
#![tactic(auto, using(crate::proofs::ShapeLaws::cause_pos), unfolding(crate::specs::States::put, crate::specs::States::put_with, crate::specs::States::asked, crate::specs::States::edited, crate::specs::Edits::kind_of, crate::specs::Edits::place_of, crate::specs::Edits::given, crate::specs::Edits::replacing, crate::specs::Edits::geometry_at, crate::specs::Table::new_sum))]

ghost use Rattle.std.specs.Prelude.{◌≡◌, ◌⊎◌, [], ◌++◌, ℕ, ◌+◌, ◌≤◌, ◌^◌, length, replicate};
ghost use Rattle.field.specs.Field.{◌⊕◌, ◌•◌, power, steps, blocks, sum, xor_bytes};
ghost use Rattle.file.specs.Edits;
ghost use Rattle.file.specs.Edits.{geometry};
ghost use Rattle.file.specs.Table.{new_sum};
ghost use Rattle.file.specs.States.{asked_by, put_with, edited};
ghost use Rattle.file.specs.Clauses.{state_answer, asked_of};

use super::causes::Cause;
use super::geometry::{Kind, Shape, measure};
use super::states::State;
use field::Block;
use field::multiplying::Count;
use field::seeking::times_power;
use field::summing::fold;

// What an edit makes of a state, before it is put there: the new sum and length, and the count of products.
#[derive(Clone, Copy)]
pub struct Moved {
    pub s: Block,
    pub n: u64,
    pub count: Count,
}

// The new sum is x times base^k, plus added.
#[derive(Clone, Copy)]
struct Factors {
    x: Block,
    base: Block,
    added: Block,
}

impl State {
    // Bytes p to p + l - 1 become new; old and new are of l bytes each. Refused with 2 where the state's length passes 2^61 - 1, with 4
    // where old and new differ in length, with 3 where p + l passes the file's end.
    pub fn change(&mut self, p: u64, old: &[u8], new: &[u8]) -> Result<Count, Cause>
        ensures { state_answer self.new result ≡ edited self.old (Edits.change p old.now new.now) }
    {
        self.edit_by(Kind::Change, p, old, new)
    }

    // The given bytes go after the last. Refused with 2 where the state's length passes 2^61 - 1, or would.
    pub fn append(&mut self, given: &[u8]) -> Result<Count, Cause>
        ensures { state_answer self.new result ≡ edited self.old (Edits.append given.now) }
    {
        self.edit_by(Kind::Append, 0, given, &[])
    }

    // The given bytes go before the first. Refused with 2 where the state's length passes 2^61 - 1, with 5 where the given length is no
    // multiple of 16, with 2 where the new length would pass 2^61 - 1.
    pub fn prepend(&mut self, given: &[u8]) -> Result<Count, Cause>
        ensures { state_answer self.new result ≡ edited self.old (Edits.prepend given.now) }
    {
        self.edit_by(Kind::Prepend, 0, given, &[])
    }

    // The given bytes leave the front. Refused with 2 where the state's length passes 2^61 - 1, with 5 where the given length is no
    // multiple of 16, with 3 where it passes the file's.
    pub fn drop_front(&mut self, given: &[u8]) -> Result<Count, Cause>
        ensures { state_answer self.new result ≡ edited self.old (Edits.drop_front given.now) }
    {
        self.edit_by(Kind::DropFront, 0, given, &[])
    }

    // The given bytes leave the end. Refused with 2 where the state's length passes 2^61 - 1, with 3 where the given length passes the
    // file's.
    pub fn cut_tail(&mut self, given: &[u8]) -> Result<Count, Cause>
        ensures { state_answer self.new result ≡ edited self.old (Edits.cut_tail given.now) }
    {
        self.edit_by(Kind::CutTail, 0, given, &[])
    }

    // An edit asked for as `ask` has it; what it moves is put into the state, which a refused one leaves as it was.
    fn edit_by(&mut self, kind: Kind, p: u64, a: &[u8], b: &[u8]) -> Result<Count, Cause>
        requires { (kind ≡ Kind.Change) ⊎ (b.now ≡ []) }
        ensures { state_answer self.new result ≡ put_with self.old
            (asked_by self.old kind (geometry kind p (length a.now) (length b.now) self.old.n) a.now b.now) }
    {
        let moved = ask(self, kind, p, a, b)?;
        self.s = moved.s;
        self.n = moved.n;
        Ok(moved.count)
    }
}

// An edit of a kind asked for, at p, with given bytes a and of a change new bytes b; no other kind has b. One of no bytes moves nothing.
fn ask(st: &State, kind: Kind, p: u64, a: &[u8], b: &[u8]) -> Result<Moved, Cause>
    requires { (kind ≡ Kind.Change) ⊎ (b.now ≡ []) }
    ensures { asked_of st.now result ≡ asked_by st.now kind (geometry kind p (length a.now) (length b.now) st.now.n) a.now b.now }
{
    let l = a.len() as u64;
    let shape = measure(kind, p, l, b.len() as u64, st.n)?;
    if l == 0 {
        return Ok(Moved {
            s: st.s,
            n: st.n,
            count: Count::none(),
        });
    }
    Ok(moved_by(st, kind, shape, a, b))
}

// The new sum, length and count of an edit of a shape. W is the sum of the placed bytes; one product with a power follows. The count is
// the running count of these products, begun at none. The requires: the shape's blocks are those of the placed bytes,
// and so few that their number can be an index.
fn moved_by(st: &State, kind: Kind, shape: Shape, a: &[u8], b: &[u8]) -> Moved
    requires q_value { shape.q ≡ blocks (length (replicate shape.lead 0 ++ xor_bytes a.now b.now)) }
    requires q_bound { shape.q ≤ 2 ^ 59 }
    ensures sum { result.s ≡ new_sum kind st.now.h st.now.i st.now.s
        (sum st.now.h (replicate shape.lead 0 ++ xor_bytes a.now b.now)) shape.k }
    ensures length { result.n ≡ shape.n }
    ensures count { result.count.raised ≡ shape.q + steps shape.k + 1 }
{
    let w = fold(
        st.h,
        Block::ZERO,
        shape.lead as usize,
        a,
        b,
        shape.q as usize,
        Count::none(),
    );
    let f = arranged(st, kind, w.value);
    let product = times_power(f.x, f.base, shape.k, w.count);
    Moved {
        s: product.value.plus(f.added),
        n: shape.n,
        count: product.count,
    }
}

// Document 01's table, row by row, for the sum w of the placed bytes.
fn arranged(st: &State, kind: Kind, w: Block) -> Factors
    ensures { (k : ℕ) → result.x • power result.base k ⊕ result.added ≡ new_sum kind st.now.h st.now.i st.now.s w k }
{
    match kind {
        Kind::Append => Factors {
            x: st.s,
            base: st.h,
            added: w,
        },
        Kind::CutTail => Factors {
            x: st.s.plus(w),
            base: st.i,
            added: Block::ZERO,
        },
        Kind::Change | Kind::Prepend | Kind::DropFront => Factors {
            x: w,
            base: st.h,
            added: st.s,
        },
    }
}
