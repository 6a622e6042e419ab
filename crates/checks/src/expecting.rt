// A comparison of what a program prints with what it should.

use std::alloc::AllocError;
use std::process::Abort;
use std::test::Fail;

// Stops unless that text was printed.
pub(crate) fn expect(
    rt: &impl Abort,
    printed: Result<String, AllocError>,
    text: &str,
) -> Result<(), Fail> {
    let printed = printed?;
    assert!(rt; printed.as_str() == text, "{}", text);
    Ok(())
}
