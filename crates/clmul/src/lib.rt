// Carry-less products of numbers of 128 bits by integer multiplications with holes. An operand is masked to every fourth bit; then no digit to
// the base 16 of an integer product of two halves passes 8, no carry leaves its digit, and the last bit of each digit is a bit of the carry-less
// product. No branch and no index depends on an operand. This crate knows nothing of fields or blocks.
#![tactic(auto)]

pub mod halves;
pub mod karatsuba;
pub mod sixteen;
