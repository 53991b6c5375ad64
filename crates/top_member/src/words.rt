use crate::changes::Change;
use crate::ended::Ended;
use base_bytes::{Items, Text};
use base_vectors::Id;
use data_value::Data;
use hex::FromHexError;
use member_codec::{CodecError, read_view};
use member_node::KeyDecl;
use member_views::{PLACES, View};
use script_reading::{is_key_name, kind_named};
use std::alloc::Global;
use top_lines::identity;

/// What the words of the command line say, pair by pair.
#[derive(Drop)]
pub(crate) struct Words {
    /// After `--id`.
    pub(crate) id: Option<Id>,
    /// After `--of`: with how many members the cluster began.
    pub(crate) members: Option<u8>,
    /// After `--view`: the view that is spelled.
    pub(crate) view: Option<View>,
    /// After `--file`.
    pub(crate) file: Option<String>,
    /// After `--key` and `--durable`.
    pub(crate) keys: Items<KeyDecl<Data>>,
    /// After `--remove`, `--join` and `--restart`.
    pub(crate) changes: Items<Change>,
}

/// With how many members a cluster begins.
fn members(word: &str) -> Result<u8, Ended> {
    match word.parse::<u8>() {
        Ok(members) if 1 <= members && members <= PLACES => Ok(members),
        _ => Err(Ended::Usage),
    }
}

/// The view that hexadecimal digits spell.
fn spelled_view(alloc: Global, word: &str) -> Result<View, Ended> {
    let bytes = match hex::decode(alloc, word) {
        Ok(bytes) => bytes,
        Err(FromHexError::OutOfMemory) => return Err(Ended::Memory),
        Err(_) => return Err(Ended::Usage),
    };
    match read_view(alloc, bytes.as_slice()) {
        Ok(view) => Ok(view),
        Err(CodecError::Memory) => Err(Ended::Memory),
        Err(CodecError::NotASpelling(_)) => Err(Ended::Usage),
    }
}

/// A key: its name, `=` and its kind.
fn key(word: &str, durable: bool) -> Result<KeyDecl<Data>, Ended> {
    let Some((name, kind)) = word.split_once('=') else {
        return Err(Ended::Usage);
    };
    if !is_key_name(name) {
        return Err(Ended::Usage);
    }
    let Ok(key) = Text::new(name) else {
        return Err(Ended::Usage);
    };
    match kind_named(kind) {
        Some(kind) => Ok(KeyDecl { key, kind, durable }),
        None => Err(Ended::Usage),
    }
}

/// An identity.
fn id(word: &str) -> Result<Id, Ended> {
    match identity(word.as_bytes()) {
        Some(id) => Ok(id),
        None => Err(Ended::Usage),
    }
}

/// A place.
fn place(word: &str) -> Result<u8, Ended> {
    match word.parse::<u8>() {
        Ok(place) if place < PLACES => Ok(place),
        _ => Err(Ended::Usage),
    }
}

impl Words {
    /// One pair more: what is named, and a word.
    fn take(&mut self, alloc: Global, name: &str, word: &str) -> Result<(), Ended> {
        match name {
            "--id" => self.id = Some(id(word)?),
            "--of" => self.members = Some(members(word)?),
            "--view" => self.view = Some(spelled_view(alloc, word)?),
            "--file" => self.file = Some(String::from_str(alloc, word)?),
            "--key" => self.keys.push(key(word, false)?)?,
            "--durable" => self.keys.push(key(word, true)?)?,
            "--remove" => self.changes.push(Change::Remove(id(word)?))?,
            "--join" => self.changes.push(Change::Join(place(word)?))?,
            "--restart" => self.changes.push(Change::Restart(id(word)?))?,
            _ => return Err(Ended::Usage),
        }
        Ok(())
    }
}

/// What the words say, in pairs.
pub(crate) fn words_in(alloc: Global, words: &[String]) -> Result<Words, Ended> {
    let mut said = Words {
        id: None,
        members: None,
        view: None,
        file: None,
        keys: Items::new(alloc),
        changes: Items::new(alloc),
    };
    for pair in words.chunks(2) {
        match pair {
            [name, word] => said.take(alloc, name.as_str(), word.as_str())?,
            _ => return Err(Ended::Usage),
        }
    }
    Ok(said)
}
