// How the programs read their inputs: whole, but no further than one byte past the longest that they take, so that a longer input
// is told.

#![tactic(auto)]

ghost use Rattle.std.specs.Prelude.{◌≡◌, ◌≢◌, [], Err, take, IsOk, IfOk, IfErr, IfSome};
ghost use Rattle.std.specs.IoError.{error_kind};
ghost use Rattle.std.specs.declared.io.ErrorKind.TheVariants.{NotFound};

use std::alloc::Global;
use std::io;
use std::io::{ErrorKind, Read};

#[cfg(test)]
mod tests;

// One byte more than the longest input.
const MOST_READ: u64 = 65537;

// The source's bytes, or its first 65,537 where it has more. It fails only where a read or the memory does.
pub fn read_source<R: Read + Drop>(heap: Global, source: R) -> io::Result<Vec<u8>>
    ensures { IfOk result (λ v. IfSome (R.remaining source) (λ bytes. v.items ≡ take 65537 bytes)) }
{
    let mut bytes = Vec::new(heap);
    source.take(MOST_READ).read_to_end(&mut bytes)?;
    Ok(bytes)
}

// The same of a file that was to be opened. A missing file is empty.
pub fn read_opened<R: Read + Drop>(heap: Global, opened: io::Result<R>) -> io::Result<Vec<u8>>
    ensures opened { IfOk opened (λ file. IfOk result (λ v. IfSome (R.remaining file) (λ bytes. v.items ≡ take 65537 bytes))) }
    ensures missing { IfErr opened (λ e. error_kind e ≡ NotFound → IsOk result × IfOk result (λ v. v.items ≡ [])) }
    ensures failed { IfErr opened (λ e. error_kind e ≢ NotFound → result ≡ Err e) }
{
    match opened {
        Ok(file) => read_source(heap, file),
        Err(e) if e.kind() == ErrorKind::NotFound => Ok(Vec::new(heap)),
        Err(e) => Err(e),
    }
}
