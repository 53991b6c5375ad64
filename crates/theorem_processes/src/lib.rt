//! Members in several processes are members of one run.
//!
//! # What is promised, and by which contract
//!
//! - Let members make steps of their contract, each in its process, and let each message that one takes
//!   be read of bytes that spell a post of the sender to it: in any order, again or never. Members
//!   may leave, join, and come back over what their keeper holds, each with any limit of steps, which
//!   may be changed later. Then what happened, in the order of time, is a run of the model: the
//!   members stand for those of its world, what they posted is what lies on its links, and what each
//!   step told is what its event puts out (`processes_are_one_run` (`AreOneRun`, over `AllHappen`)).
//! - All keys are those of one catalogue, and each member begins with some of them. While it runs it may
//!   declare more of them, at any time, where their names rise in the catalogue (`HasDeclared`). In the
//!   run all members have declared the whole catalogue from the start: one that has declared a part of it
//!   stands for the model's, which holds nothing of the other keys (`StandsInPart`, over `UsesOnly`), and
//!   takes of a message what it says of declared keys (`taken_as`). A command for a key that is not
//!   declared is told so (`TellsUnknown`), and changes nothing but the count of steps.
//! - Members may forget how their first operations ended, at any time. Neither that nor a declaration is
//!   an event of the model: a member that forgot stands for that of the world without some of the ends
//!   below the number to which it forgot, and for all else it is as if it had forgotten nothing
//!   (`StandsInPart`, over `AreLeft`).
//! - So each member holds images of histories of that run, of which any two together are exactly
//!   pruned; members that count as many records hold the same (`processes_hold_histories`).
//! - Real calls meet the premises: two members with the highest limit, of which one posts, and the
//!   other takes the bytes of the post twice, and then forgets (`a_post_is_taken_twice` (`AreMet`)).
#![tactic(auto)]

mod laws;
#[cfg(test)]
mod tests;
mod worked;

pub use laws::{processes_are_one_run, processes_hold_histories};
pub use worked::a_post_is_taken_twice;
