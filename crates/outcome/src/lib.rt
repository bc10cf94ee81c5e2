// What a call gives: its answer, the notices it sends, and how much it did.

#![tactic(auto)]

mod answer;
mod notice;
mod reply;
mod room;

pub use answer::{Answer, Refusal};
pub use notice::{Notice, Notices, RangeChangeOp};
pub use reply::Reply;
pub use room::has_room;
