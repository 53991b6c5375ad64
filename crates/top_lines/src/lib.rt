//! One member behind lines of text: what a line asks of it, what it does, and the lines that tell of it.
//!
//! # What is promised, and by which contract
//!
//! - A line says one thing, or nothing for a reason: a step in the form that scripts have, bytes that
//!   came as from an identity, or a view (`read_line` (`Says`)).
//! - Bytes are handed to the member exactly where they are the spelling of a message that an honest
//!   member of its view could have sent, and else refused with the reason (`asked` (`IsTaken`)).
//! - What a line does: the member's step for the input that the line asks for, which is one of the
//!   model; the text has a line for each message to be sent, with its spelling, and one with the text
//!   of the reply. A line that asks for nothing changes nothing (`answer_line` (`Answers`)).
//! - The lines of a source are answered in their order, each before the next one is read, and the
//!   sink has their texts (`serve` (`Serves`)).
#![tactic(auto)]

mod answering;
mod asking;
mod line;
mod lines;
mod number;
mod reading;
mod refusal;
mod serving;
mod stopped;

pub use answering::answer_line;
pub use asking::asked;
pub use line::Line;
pub use number::identity;
pub use reading::read_line;
pub use refusal::{Fault, Refusal};
pub use serving::serve;
pub use stopped::Stopped;
