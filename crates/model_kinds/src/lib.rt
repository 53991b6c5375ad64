//! The six kinds of replicated values: their names, their operations, and the values that they show.
//! What histories of these operations mean stands in `specs/SixKinds.antt`.
#![tactic(auto)]

mod kind;
mod laws;
mod moment;
mod operation;
mod shown;

pub use kind::Kind;
pub use laws::{deletes_win, prunes_show_nothing_new};
pub use moment::Moment;
pub use operation::Op;
pub use shown::{Shown, Texts};
