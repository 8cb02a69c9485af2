// The edit journal (document 02, Q-1): records of edits back to back in lent bytes, a reader that stands in them, and replay, which applies
// them to a state record by record; and forecast, which tells beforehand what replay will do (Q-7). It stands above the file keeper. The public calls
// are `replay` and `forecast`.
#![tactic(auto)]

mod causes;
mod forecasting;
mod reader;
mod records;
mod replaying;
mod walking;

pub use causes::Cause;
pub use forecasting::{Forecasted, forecast};
pub use replaying::{Replayed, replay};
