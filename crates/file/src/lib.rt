// The file keeper: the state that stands for a file, the five edits, slip, seal and check. It stands above the cipher, the field and GMAC.
// The public calls are the methods of State; `measure` serves the layers above.
#![tactic(auto)]

mod causes;
mod edits;
mod geometry;
mod sealing;
mod slips;
mod states;

pub use causes::Cause;
pub use geometry::{Kind, Shape, measure};
pub use sealing::Verdict;
pub use slips::SLIP_BYTES;
pub use states::{Answered, State};
