// What an edit does to lengths: its refusal, or the blocks it touches, the power its sum takes and the new length. No byte is looked at.
#![tactic(auto, using(crate::proofs::ShapeLaws::cause_pos, crate::proofs::ShapeLaws::same_length), unfolding(refusals::specs::Refusals::first, crate::specs::Edits::kind_causes, crate::specs::Edits::kind_refusal, crate::specs::Edits::geometry))]

ghost use Rattle.std.specs.Prelude.{◌≡◌, Ok, [], ◌∷◌, ◌+◌, ◌-◌, ◌≤◌, ◌<◌, ◌%◌, ltb};
ghost use Rattle.field.specs.Field;
ghost use Rattle.field.specs.Field.{max_bytes};
ghost use Rattle.refusals.specs.Refusals.{first};
ghost use Rattle.file.specs.Edits.{kind_refusal, touched, geometry};
ghost use Rattle.file.specs.Clauses.{answer_refusal, geometry_of};

use super::causes::Cause;
use field::hashing::MAX_BYTES;
use field::summing::blocks;

// The five edits.
#[derive(Clone, Copy)]
pub enum Kind {
    Change,
    Append,
    Prepend,
    DropFront,
    CutTail,
}

// How the given bytes stand in the file's blocks: lead zero bytes before them in the first of the q blocks they touch, the exponent k of
// document 01's table, and the file's length afterwards.
#[derive(Clone, Copy)]
pub struct Shape {
    pub lead: u64,
    pub q: u64,
    pub k: u64,
    pub n: u64,
}

// What an edit of a file of n bytes does to lengths: l bytes are given, of a change at p, with r new ones. One of no bytes does nothing.
// It serves the layers above.
pub fn measure(kind: Kind, p: u64, l: u64, r: u64, n: u64) -> Result<Shape, Cause>
    ensures { geometry_of n result ≡ geometry kind p l r n }
{
    refusal(kind, p, l, r, n)?;
    if l == 0 {
        return Ok(Shape {
            lead: 0,
            q: 0,
            k: 0,
            n,
        });
    }
    Ok(row(kind, p, l, n))
}

// The refusal of an edit, if any: a length that passes the most before all else, then the kind's own in document 01's order.
fn refusal(kind: Kind, p: u64, l: u64, r: u64, n: u64) -> Result<(), Cause>
    ensures { answer_refusal result ≡ kind_refusal kind p l r n }
{
    if n > MAX_BYTES {
        return Err(Cause::TooLong);
    }
    match kind {
        Kind::Change if l != r => Err(Cause::UnequalPair),
        Kind::Prepend | Kind::DropFront if l % 16 != 0 => Err(Cause::BrokenBlock),
        Kind::Change => within(p, l, n),
        Kind::Append | Kind::Prepend => room(l, n),
        Kind::DropFront | Kind::CutTail => within(0, l, n),
    }
}

// Whether l bytes at p lie in a file of n.
fn within(p: u64, l: u64, n: u64) -> Result<(), Cause>
    ensures { answer_refusal result ≡ first ((ltb n (p + l), 3) ∷ []) }
{
    if n < p || n - p < l {
        return Err(Cause::OutOfFile);
    }
    Ok(())
}

// Whether a file of n bytes has room for l more.
fn room(l: u64, n: u64) -> Result<(), Cause>
    requires { n ≤ max_bytes }
    ensures { answer_refusal result ≡ first ((ltb max_bytes (n + l), 2) ∷ []) }
{
    if MAX_BYTES - n < l {
        return Err(Cause::TooLong);
    }
    Ok(())
}

// The shape of an accepted edit of at least one byte: where its bytes stand, the two lengths between which k counts blocks, and the
// length afterwards. Document 01's k of a change, m - 1 - e, is the blocks of the file past those of its first p + l bytes.
fn row(kind: Kind, p: u64, l: u64, n: u64) -> Shape
    requires { (kind_refusal kind p l l n ≡ 0) × (0 < l) }
    ensures { geometry_of n (Ok result) ≡ geometry kind p l l n }
{
    match kind {
        Kind::Change => placed(p, l, p + l, n, n),
        Kind::Append => placed(n, l, n, n + l, n + l),
        Kind::Prepend => placed(0, l, 0, n, n + l),
        Kind::DropFront => placed(0, l, l, n, n - l),
        Kind::CutTail => placed(n - l, l, n - l, n, n - l),
    }
}

// The shape of l bytes at a place, where k counts the blocks of to bytes past those of from bytes.
fn placed(at: u64, l: u64, from: u64, to: u64, n: u64) -> Shape
    requires { (0 < l) × (at + l ≤ max_bytes) × (from ≤ to) }
    ensures { result ≡ record { lead = at % 16; q = touched at l; k = Field.blocks to - Field.blocks from; n = n } }
{
    Shape {
        lead: at % 16,
        q: blocks(at + l) - at / 16,
        k: blocks(to) - blocks(from),
        n,
    }
}
