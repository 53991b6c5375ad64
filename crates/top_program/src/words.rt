ghost use Rattle.std.specs.Prelude.{◌≡◌, ◌≢◌, [], drop, IsErr, IfOk, IfErr, IsOkAnd};
ghost use Rattle.std.specs.IoError.{error_kind};
ghost use Rattle.std.specs.Vec.Iter.{into_iter_items};

use std::alloc::{AllocError, Global};
use std::env::Args;
use std::io::{self, ErrorKind};

/// The words behind the program's name, which is the first of all. There are none where one of all is not UTF-8.
pub(crate) fn words_behind_name(
    alloc: Global,
    all: io::Result<Args>,
) -> Result<Vec<String>, AllocError>
    ensures behind { IfOk all (λ all. IfOk result (λ words. words.items ≡ drop 1 (into_iter_items all))) }
    ensures no_text { IfErr all (λ error. error_kind error ≢ ErrorKind.OutOfMemory → IsOkAnd result (λ words. words.items ≡ [])) }
    ensures memory { IfErr all (λ error. error_kind error ≡ ErrorKind.OutOfMemory → IsErr result) }
{
    match all {
        Ok(all) => all.skip(1).collect(alloc),
        Err(error) if error.kind() == ErrorKind::OutOfMemory => Err(AllocError),
        Err(_) => Ok(Vec::new(alloc)),
    }
}
