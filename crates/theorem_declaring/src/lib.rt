//! Members that have declared only a part of their keys. There is no code here: the functions carry the theorems.
//!
//! A member of the model has all its keys from the start. One that declares them while it runs is such a member, of which only a
//! part of the keys was used so far.
//!
//! # What is promised, and by which contract
//!
//! - As long as what it takes speaks of declared keys only, a member with a part of the keys makes the steps of one with all
//!   (`parts_make_the_same_steps`), and nothing is held of the other keys then (`parts_stay_parts`).
//! - Another key is declared by putting it in its place (`parts_grow`).
//! - Commands for keys that are not declared are refused, and another refused input stands for them (`other_keys_are_unknown`).
//! - A new member is one in which a part of the keys was used, if its store has nothing of the others (`new_members_are_parts`).
#![tactic(auto)]

mod laws;

pub use laws::{
    new_members_are_parts, other_keys_are_unknown, parts_grow, parts_make_the_same_steps,
    parts_stay_parts,
};
