ghost use Rattle.std.specs.Prelude.{◌≡◌, ◌==◌, position};
ghost use Rattle.std.specs.Char.{is_ascii_digit};
ghost use Rattle.std.specs.List.{list_all};
ghost use Rattle.transcript.specs.Input.{before, behind, number};

use std::str;

// Where the first byte `stop` stands.
fn place_of(bytes: &[u8], stop: u8) -> Option<usize>
    ensures { result ≡ position (λ b. b == stop) bytes.now }
{
    bytes.iter().position(|byte| *byte == stop)
}

// The bytes before the first byte `stop`, and those behind it.
#[tactic(auto, using(crate::proofs::Cutting::before_found, crate::proofs::Cutting::behind_found, crate::proofs::Cutting::before_none, crate::proofs::Cutting::behind_none))]
pub(crate) fn cut_at(bytes: &[u8], stop: u8) -> (&[u8], &[u8])
    ensures before { result.0.now ≡ before stop bytes.now }
    ensures behind { result.1.now ≡ behind stop bytes.now }
{
    match place_of(bytes, stop) {
        Some(at) => (&bytes[..at], &bytes[at + 1..]),
        None => (bytes, &[]),
    }
}

// The most digits that a number has.
const MOST_DIGITS: usize = 9;

fn are_digits(bytes: &[u8]) -> bool
    ensures { result ≡ list_all is_ascii_digit bytes.now }
{
    bytes.iter().all(u8::is_ascii_digit)
}

// The number that one to nine digits write. Unlike `parse` alone, it takes no sign.
#[tactic(auto, using(crate::proofs::Digits::number_long, crate::proofs::Digits::number_broken, crate::proofs::Digits::number_read, crate::proofs::Digits::digits_text))]
pub(crate) fn number_of(digits: &[u8]) -> Option<u32>
    ensures { result ≡ number digits.now }
{
    if digits.len() > MOST_DIGITS || !are_digits(digits) {
        return None;
    }
    str::from_utf8(digits).ok()?.parse().ok()
}
