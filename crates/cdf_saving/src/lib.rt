//! How a run ends: its status, what is known of it beside, and how its image is saved.
#![tactic(auto)]

mod ended;
mod notes;
mod refusals;
mod saving;
mod status;

pub use ended::Ended;
pub use notes::{Left, Notes};
pub use refusals::{BrokenCondition, Condition, LineMark, Refusals, RefusedLine};
pub use saving::{is_saved, save};
pub use status::{Status, area_status, end_status};
