// What the calls of `rent_buf` and `op_slots` do where memory is at hand, by worked values.
pub(crate) mod acts;
mod fill;
mod lists;
mod part_lists;
mod parts;
mod plain;
mod read;
mod slots;
pub(crate) mod why;
