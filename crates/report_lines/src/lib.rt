//! The report of a script's run: the lines of its steps, and what each member holds at the end; and this end alone.
//!
//! # What is promised, and by which contract
//!
//! - The text of a script's run over the keepers of the places, and what became of them: the text is
//!   the report of a run of the script in the sense of `theorem_sections`, with the answers that the
//!   keepers gave. They were called as often as in that run, and each told table holds its place's
//!   store at its end, and nothing else. Where no count rose, it is the report of a run with no
//!   failure. Where a keeper tells no table and the script has a restart, this is said of the lines
//!   before the first restart (`report`, `report_with_clients` (`IsPlayed`, `IsReportOver`)).
//! - A script without clients has one run: the text is *the* report, a function of the script and of
//!   what the keepers answer. In that run majority gets include the majority updates whose success
//!   was told before (`GetsIncludeUpdates`, by `theorem_operations::quorum_theorem_of_scripts`), and
//!   what settles tell is so (`SettlesAreAsTold`, by `theorem_digests::settles_agree_by_digests`):
//!   field `plain` of `IsWholeReport`.
//! - `report` plays such scripts alone, and needs no runtime; `report_with_clients` plays thread steps
//!   in threads of a runtime, and whatever gate is told of the calls.
//! - The same of the report's final block alone, of a script without clients. Where a keeper tells no
//!   table and the script has a restart, nothing is said of its text (`summary` (`IsPlayed`,
//!   `IsSummaryOver`)).
//! - The keys of a report are those that its script declares, each once, and their names rise in
//!   byte order (`keys_rise`).
#![tactic(auto)]

mod laws;
mod lines;
mod members;
mod order;
mod playing;
mod sections;

pub use laws::keys_rise;
pub use lines::push_lines;
pub use playing::{Ending, Played, ended, finished, first_world, report, summary};
pub use sections::report_with_clients;
