// Decimal numbers in byte slices: read and written.
#![tactic(auto)]

mod fields;
mod parts;
mod read;
mod write;

pub use fields::{bad_field, next_i32, next_u32, read_numbers};
pub use parts::{find, first_numbers, keep, part_end};
pub use read::{read_digits, read_i32, read_signed, read_u32};
pub use write::{
    digit_count, has_room, write_bad, write_bytes, write_counted, write_field, write_i32,
    write_number, write_triple, write_u32, write_u64,
};
