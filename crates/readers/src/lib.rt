// What a line of words and numbers says: which word it begins with, and the figures that its numbers describe.
#![tactic(auto)]

mod figures;
mod words;

pub use figures::{
    Corners, NO_TRIANGLE, first_corners, last_u32, line_end, next_circle, next_corners, next_ends,
    next_point, read_corners, read_point,
};
pub use words::is_word;
