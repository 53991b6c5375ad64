ghost use Rattle.top_lines.specs.Rows.{ReadsByte, ReadsNext};

use base_outside::{Failed, ReadAllError, Source};
use std::alloc::Global;

/// A line has at most so many bytes.
pub const MOST_BYTES: usize = 16_777_216;

/// The next byte of a source, and none at its end.
fn next_byte<S: Source>(source: &mut S) -> Result<Option<u8>, Failed>
    ensures { ReadsByte (S.left source.old) (S.left source.new) result }
{
    let mut byte = [0u8; 1];
    match source.read(&mut byte) {
        Ok(0) => Ok(None),
        Ok(_) => Ok(Some(byte[0])),
        Err(failed) => Err(failed),
    }
}

/// The next line of a source, without the byte that ends it, and none where no further line was ended.
pub(crate) fn next_line<S: Source>(
    alloc: Global,
    source: &mut S,
) -> Result<Option<Vec<u8>>, ReadAllError>
    ensures { ReadsNext (S.left source.old) (S.left source.new) result }
{
    let mut line = Vec::new(alloc);
    while line.len() <= MOST_BYTES {
        let byte = match next_byte(source) {
            Ok(Some(byte)) => byte,
            Ok(None) => return Ok(None),
            Err(_) => return Err(ReadAllError::ReadFailed),
        };
        if byte == b'\n' {
            return Ok(Some(line));
        }
        if line.push(byte).is_err() {
            return Err(ReadAllError::Memory);
        }
    }
    Err(ReadAllError::TooLong)
}
