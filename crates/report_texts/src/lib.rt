//! Texts of values, version vectors and marks, as reports show them.
//!
//! # What is promised, and by which contract
//!
//! - What a report shows of an entry, as text: a shown value, the numbers of records, the marks
//!   (`push_shown`, `push_value`, `push_known`, `push_marks`).
#![tactic(auto)]

mod marks;
mod shown;
mod value;
mod vector;
mod words;

pub use marks::push_marks;
pub use shown::push_shown;
pub use value::push_value;
pub use vector::push_known;
