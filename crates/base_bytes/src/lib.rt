//! Texts and lists that contracts see as plain data, and the fields of a spelling as bytes: how they are spelled, and how they are read.
//!
//! # What is promised, and by which contract
//!
//! - A text has at most 64 bytes; a list is its items (`Text::new`, `Items`).
//! - A number of 1, 4 or 8 bytes, or a text, has one spelling; what is spelled is read, whatever
//!   follows it, and only that; else the answer is the place of the first field that is cut short
//!   or breaks its rule (`Spelled` and its impls, `read_byte`, `read_word`, `read_number`,
//!   `read_text`).
#![tactic(auto)]

mod fault;
mod fields;
mod items;
mod memory;
mod spelled;
mod text;

pub use fault::{Fault, FieldError, ReadError};
pub use fields::{keep, read_byte, read_number, read_text, read_word};
pub use items::Items;
pub use memory::Memory;
pub use spelled::{Spelled, placed};
pub use text::{MOST_BYTES, Text, TooLong};
