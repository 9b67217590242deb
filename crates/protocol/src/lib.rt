// The line that answers a line of `replay`, and bytes as hexadecimal digits, written and read.
#![tactic(auto)]

mod digits;
mod reply;

pub use digits::{dump, put_hex};
pub use reply::{Reply, Value, write_bad, write_reply};
