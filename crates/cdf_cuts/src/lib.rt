//! Records cut out of the index of a variable and out of its blocks: what each node is to say is planned, the nodes are written, and what is
//! left over is freed.
#![tactic(auto)]

mod cutting;
mod moving;
mod planning;
mod room;
mod writing;

pub use cutting::{close_records, cut_end, cut_index, cut_past, find_later, join_later};
pub use planning::Span;
pub use room::read_closing_room;
