//! The run of the program: from the words of its command line to what it writes.
#![tactic(auto)]

mod checked;
mod conditions;
mod file;
mod measured;
mod opened;
mod replay;
mod saving;
mod say;
mod script;
mod showing;
mod top;

pub use cdf_saving::{
    BrokenCondition, Condition, Ended, Left, LineMark, Notes, Refusals, RefusedLine, Status,
};
pub use say::say_no_file;
pub use top::run;
