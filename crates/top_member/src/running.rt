use crate::changes::views_text;
use crate::ended::Ended;
use crate::opening::{opened, view_of};
use crate::words::{Words, words_in};
use base_outside::{StdSink, StdSource, write_all_of};
use base_vectors::Id;
use data_value::Data;
use member_keeper::{Keeper, MemoryKeeper};
use member_node::Node;
use member_sqlite::FileKeeper;
use std::alloc::Global;
use std::env;
use std::io::{self, BufReader};
use std::process::ExitCode;
use std::rt::Env;
use top_lines::serve;

/// The words behind the program's name.
fn words(rt: &HostRuntime) -> Result<Words, Ended> {
    let alloc = rt.alloc();
    let Ok(all) = env::args(rt) else {
        return Err(Ended::Usage);
    };
    let all: Vec<String> = all.skip(1).collect(alloc)?;
    words_in(alloc, &all)
}

/// Answers the lines of standard input on standard output.
fn answer<K: Keeper + Drop>(rt: &HostRuntime, member: &mut Node<Data, K>) -> Result<(), Ended> {
    let Ok(reader) = BufReader::new(rt.alloc(), rt.reader()) else {
        return Err(Ended::Memory);
    };
    let mut source = StdSource::new(reader);
    let mut sink = StdSink::new(io::writer(rt));
    Ok(serve(rt.alloc(), member, &mut source, &mut sink)?)
}

/// Runs a member whose keeper is in memory.
fn run_in_memory(rt: &HostRuntime, id: Id, words: &Words) -> Result<(), Ended> {
    let alloc = rt.alloc();
    let keeper = MemoryKeeper::new(alloc, Vec::new(alloc));
    let view = view_of(alloc, words)?;
    let mut member = opened(alloc, keeper, id, view, words.keys.as_slice())?;
    answer(rt, &mut member)
}

/// Runs a member whose keeper is over a file, and closes this at the end of the input.
fn run_over_file(rt: &HostRuntime, id: Id, words: &Words, path: &str) -> Result<(), Ended> {
    let keeper = match FileKeeper::open(rt, path) {
        Ok(keeper) => keeper,
        Err(why) => return Err(Ended::NoFile(why)),
    };
    let view = view_of(rt.alloc(), words)?;
    let mut member = opened(rt.alloc(), keeper, id, view, words.keys.as_slice())?;
    answer(rt, &mut member)?;
    match member.into_keeper().close() {
        Ok(()) => Ok(()),
        Err(why) => Err(Ended::NoFile(why)),
    }
}

/// Writes the views that the words name.
fn tell_views(rt: &HostRuntime, words: &Words) -> Result<(), Ended> {
    let Some(members) = words.members else {
        return Err(Ended::Usage);
    };
    let text = views_text(rt.alloc(), members, words.changes.as_slice())?;
    let mut sink = StdSink::new(io::writer(rt));
    match write_all_of(&mut sink, text.as_bytes()) {
        Ok(()) => Ok(()),
        Err(_) => Err(Ended::WriteFailed),
    }
}

/// Does what the words ask for.
fn outcome(rt: &HostRuntime) -> Result<(), Ended> {
    let words = words(rt)?;
    match (words.id, &words.file) {
        (None, _) => tell_views(rt, &words),
        (Some(id), None) => run_in_memory(rt, id, &words),
        (Some(id), Some(path)) => run_over_file(rt, id, &words, path.as_str()),
    }
}

/// Runs the program on the standard streams, and answers its exit status. Where that is not the first, one line on standard error
/// says why, for a person.
pub fn run(rt: &HostRuntime) -> ExitCode {
    match outcome(rt) {
        Ok(()) => ExitCode::SUCCESS,
        Err(ended) => {
            if let Ok(line) = ended.told(rt.alloc()) {
                let _ = eprintln!(rt; "{line}");
            }
            ExitCode::from(ended.code())
        }
    }
}
