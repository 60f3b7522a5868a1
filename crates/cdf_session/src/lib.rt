//! One file under edit: it is taken up or made, commands are carried out on it, and it is given back.
#![tactic(auto)]

mod adopting;
mod checksum;
mod deleting;
mod kept;
mod loading;
mod new_file;
mod on_attributes;
mod on_cuts;
mod on_records;
mod on_variables;
mod parts;
mod reading;
mod refusal;
mod session;
mod setting_up;
mod walking;

pub use checksum::read_seal;
pub use new_file::NEW_SIZE;
pub use refusal::{AdoptError, Refusal};
pub use session::Session;
