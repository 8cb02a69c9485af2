// The product of two blocks, which SP 800-38D defines by its Algorithm 1 (section 6.3): a carry-less product and one reduction; and the
// counted product. All of it is constant time: no branch and no index depends on what a block holds.
ghost use Rattle.std.specs.Prelude.{◌≡◌, ◌+◌, ◌-◌, ◌*◌, ◌^◌, ◌<◌};
ghost use Rattle.clmul.specs.Clmul.{wide};
ghost use Rattle.field.specs.Elements.{Vᵢ};
ghost use Rattle.field.specs.Blocks.{block, ◌•◌};
ghost use Rattle.field.specs.Clauses.{counted};

use super::blocks::Block;
use clmul::karatsuba::Wide;

// w times two, where that fits. In the carry-less product of two blocks the coefficient of x^0 is bit 254, one below where the reduction has it.
fn doubled(w: Wide) -> Wide
    ensures { wide w < 2 ^ 255 → wide result ≡ wide w * 2 }
{
    Wide {
        w3: (w.w3 << 1) | (w.w2 >> 63),
        w2: (w.w2 << 1) | (w.w1 >> 63),
        w1: (w.w1 << 1) | (w.w0 >> 63),
        w0: w.w0 << 1,
    }
}

// v after 64 steps of V: the 64 low bits go out on the right, and each that is a one brings R in.
fn folded(v: Wide) -> Wide
    ensures { wide result ≡ Vᵢ (wide v) 64 }
{
    let out = v.w0;
    Wide {
        w3: 0,
        w2: v.w3,
        w1: v.w2 ^ (out ^ (out >> 1) ^ ((out >> 2) ^ (out >> 7))),
        w0: v.w1 ^ ((out << 63) ^ ((out << 62) ^ (out << 57))),
    }
}

// The block of a carry-less product, or of a sum of such products, which have at most 255 bits: one reduction. It serves the crate.
pub fn reduced(w: Wide) -> Block
    ensures { wide w < 2 ^ 255 → result ≡ block (Vᵢ (wide w) 127) }
{
    let r = folded(folded(doubled(w)));
    Block { hi: r.w1, lo: r.w0 }
}

// The product of two blocks: their carry-less product, reduced. It is private: other files take the counted product.
fn product(a: Block, b: Block) -> Block
    ensures { result ≡ a • b }
{
    reduced(clmul::karatsuba::product(a.hi, a.lo, b.hi, b.lo))
}

// The square of a block, which takes less time than a product. It is counted nowhere: it serves the crate where nothing is counted, in the
// companion and in the powers for whole files.
pub fn squared(a: Block) -> Block
    ensures { result ≡ a • a }
{
    reduced(clmul::karatsuba::square(a.hi, a.lo))
}

// A number of counted products. Its field is private, so that outside this file a count can only be begun at none, be raised by the
// counted product and be read: no count comes about in another way. How much room a count must have stands in each contract, and not in the type: it is
// as many products as the function may take, and so differs.
#[derive(Clone, Copy)]
pub struct Count {
    raised: u64,
}

impl Count {
    // No product yet. It serves the layers above.
    pub fn none() -> Count
        ensures { result.raised ≡ 0 }
    {
        Count { raised: 0 }
    }

    // How many products were counted. It serves the layers above.
    pub fn number(self) -> u64
        ensures { result ≡ self.raised }
    {
        self.raised
    }
}

// A product, and the running count with it counted.
#[derive(Clone, Copy)]
pub struct Counted {
    pub value: Block,
    pub count: Count,
}

// The counted product, as document 01 coins the term: the product of two blocks, and one more in the running count, which the
// caller keeps small enough to fit. Who needs no count begins one for the call and drops it. It serves the layers above.
pub fn counted_product(a: Block, b: Block, count: Count) -> Counted
    requires { count.raised < 2 ^ 64 - 1 }
    ensures { result ≡ counted (a • b) (count.raised + 1) }
{
    let raised = count.raised + 1;
    Counted {
        value: product(a, b),
        count: Count { raised },
    }
}
