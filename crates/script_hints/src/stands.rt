//! What stands in a text where it stops being JSON.

use serde_json::Error;
use std::fmt;

/// How deep brackets may be nested.
const DEEPEST: usize = 127;

const BYTE_ORDER_MARK: &[u8] = b"\xef\xbb\xbf";

/// What stands in a text where it stops being JSON.
#[derive(Clone, Copy)]
pub(crate) enum Stands {
    /// The text is empty.
    NoText,
    /// The end of the text.
    End,
    ByteOrderMark,
    /// A byte by which the text is not UTF-8.
    NoUtf8,
    /// A character beyond ASCII.
    BeyondAscii,
    /// The beginning of a text in quotes that is none: by an escape, or a character that needs one.
    Quoted,
    /// What stands in brackets that are nested too deep.
    TooDeep,
    /// This character, where a value has to stand behind a comma.
    BehindComma(char),
    /// This character, where a number ends that may itself be at fault.
    BehindNumber(char),
    This(char),
}

impl Stands {
    /// What stands where the reader of these bytes found its error.
    pub(crate) fn at(bytes: &[u8], error: &Error) -> Stands {
        if bytes.is_empty() {
            return Stands::NoText;
        }
        let offset = offset_of(bytes, error.line(), error.column());
        match bytes.get(offset) {
            Some(byte) if !error.is_eof() => Stands::found(bytes, offset, *byte),
            _ => Stands::End,
        }
    }

    /// What a byte at this offset is.
    fn found(bytes: &[u8], offset: usize, byte: u8) -> Stands {
        let before = bytes.get(..offset).unwrap_or(bytes);
        match byte {
            0x80.. => Stands::beyond_ascii(bytes, offset),
            _ if depth_of(before) > DEEPEST => Stands::TooDeep,
            b'"' if may_a_value_follow(before) => Stands::Quoted,
            b',' | b']' | b'}' => Stands::behind(last_of(before), char::from(byte)),
            _ => Stands::This(char::from(byte)),
        }
    }

    /// What a character is that may end a value, behind this byte.
    fn behind(last: Option<u8>, found: char) -> Stands {
        match last {
            Some(b',') => Stands::BehindComma(found),
            Some(b'0'..=b'9') => Stands::BehindNumber(found),
            _ => Stands::This(found),
        }
    }

    /// What a byte beyond ASCII is.
    fn beyond_ascii(bytes: &[u8], offset: usize) -> Stands {
        if str::from_utf8(bytes).is_err() {
            Stands::NoUtf8
        } else if offset == 0 && bytes.starts_with(BYTE_ORDER_MARK) {
            Stands::ByteOrderMark
        } else {
            Stands::BeyondAscii
        }
    }
}

/// How many bytes stand before this column of this line, both counted from 1. At column 0 no byte of the line was read.
fn offset_of(bytes: &[u8], line: usize, column: usize) -> usize {
    let mut lines = 1usize;
    let mut start = 0usize;
    for (index, byte) in bytes.iter().enumerate() {
        if *byte == b'\n' && lines < line {
            lines = lines.saturating_add(1);
            start = index.saturating_add(1);
        }
    }
    match column.checked_sub(1) {
        Some(before) => start.saturating_add(before),
        None => bytes.len(),
    }
}

/// The last byte that is no white space.
fn last_of(bytes: &[u8]) -> Option<u8> {
    let mut last = None;
    for byte in bytes {
        if !matches!(*byte, b' ' | b'\t' | b'\n' | b'\r') {
            last = Some(*byte);
        }
    }
    last
}

/// Whether a value or a name may follow these bytes.
fn may_a_value_follow(bytes: &[u8]) -> bool {
    matches!(
        last_of(bytes),
        None | Some(b'[') | Some(b'{') | Some(b':') | Some(b',')
    )
}

/// How many brackets are open behind these bytes.
fn depth_of(bytes: &[u8]) -> usize {
    let mut depth = 0usize;
    for byte in bytes {
        match *byte {
            b'[' | b'{' => depth = depth.saturating_add(1),
            b']' | b'}' => depth = depth.saturating_sub(1),
            _ => {}
        }
    }
    depth
}

impl fmt::Display for Stands {
    fn fmt<W: fmt::Write>(&self, f: &mut fmt::Formatter<W>) -> fmt::Result {
        match self {
            Stands::NoText => f.write_str("since the text is empty"),
            Stands::End => f.write_str("where the text ends with something still open"),
            Stands::ByteOrderMark => f.write_str("where a byte order mark stands"),
            Stands::NoUtf8 => f.write_str("where a byte stands that is not UTF-8"),
            Stands::BeyondAscii => f.write_str("where a character beyond ASCII stands"),
            Stands::Quoted => {
                f.write_str(
                    "where a text begins that has an escape or a character which JSON does not allow",
                )
            }
            Stands::TooDeep => write!(f, "where brackets are nested deeper than {DEEPEST}"),
            Stands::BehindComma(found) => write!(f, "where {found} stands behind a comma"),
            Stands::BehindNumber(found) => write!(f, "where {found} stands behind a number"),
            Stands::This(found) => write!(f, "where {found} stands"),
        }
    }
}
