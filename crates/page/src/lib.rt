// One page of a read, a write and a commit.

#![tactic(auto)]

mod reading;
mod writing;

pub use reading::read_page;
pub use writing::{commit_one, write_page};
