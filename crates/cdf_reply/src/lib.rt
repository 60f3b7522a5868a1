//! The texts of replies.
#![tactic(auto)]

mod fault;
mod head;
mod item;
mod reason;
mod reply;

pub use head::{append_head, append_list};
pub use item::{kind_name, scope_name};
pub use reply::reply_text;
