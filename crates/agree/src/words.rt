// The words of a text, one blank or line end after each, and the heap for what is read from them. A text of another form is read
// too, as some words or others: so a damaged file ends in counts as any other, and what it says of single cases has no meaning.
ghost use Rattle.std.specs.Prelude.{◌≤◌, IfSome};

use std::alloc::{AllocError, Global};

#[derive(Drop)]
pub(crate) struct Words<'a> {
    pub(crate) heap: Global,
    text: &'a [u8],
    at: usize,
}

// What some words in a row say.
pub(crate) trait FromWords: Sized {
    // The most items in a list of these; a list with a greater count ends there.
    const MOST: u64;

    fn from_words(words: &mut Words) -> Self;
}

impl<'a> Words<'a> {
    pub(crate) fn new(heap: Global, text: &'a [u8]) -> Words<'a> {
        Words { heap, text, at: 0 }
    }

    pub(crate) fn is_at_end(&self) -> bool {
        self.at >= self.text.len()
    }

    // The next byte, a line end behind the last one.
    fn byte(&mut self) -> u8 {
        match self.text.get(self.at) {
            Some(byte) => {
                self.at += 1;
                *byte
            }
            None => b'\n',
        }
    }

    // The first letter of the next word.
    pub(crate) fn letter(&mut self) -> u8 {
        let first = self.byte();
        for _ in 0..16 {
            let b = self.byte();
            if b == b' ' || b == b'\n' {
                return first;
            }
        }
        first
    }

    // The number that the next digits write, at most 21 and modulo 2^64. Any other byte ends them.
    pub(crate) fn number(&mut self) -> u64 {
        let mut n: u64 = 0;
        for _ in 0..21 {
            let b = self.byte();
            if !b.is_ascii_digit() {
                return n;
            }
            n = n.wrapping_mul(10).wrapping_add(u64::from(b) - 48);
        }
        n
    }

    // The next number, or the greatest of 16 bits where it is above that; below, of 32 bits and of a `usize`.
    pub(crate) fn short(&mut self) -> u16 {
        u16::try_from(self.number()).unwrap_or(u16::MAX)
    }

    pub(crate) fn middle(&mut self) -> u32 {
        u32::try_from(self.number()).unwrap_or(u32::MAX)
    }

    pub(crate) fn long(&mut self) -> usize {
        usize::try_from(self.number()).unwrap_or(usize::MAX)
    }

    // Bytes in hexadecimal, `-` for none.
    pub(crate) fn bytes(&mut self) -> Result<Vec<u8>, AllocError> {
        let mut bytes = Vec::new(self.heap);
        for _ in 0..100_000 {
            let Some(high) = digit(self.byte()) else {
                break;
            };
            let Some(low) = digit(self.byte()) else {
                break;
            };
            bytes.push(16 * high + low)?;
        }
        if bytes.is_empty() {
            let _ = self.byte();
        }
        Ok(bytes)
    }

    // Items behind their count.
    pub(crate) fn list<T: FromWords + Drop>(&mut self) -> Result<Vec<T>, AllocError> {
        let mut items = Vec::new(self.heap);
        let count = self.number();
        for _ in 0..count.min(T::MOST) {
            items.push(T::from_words(self))?;
        }
        Ok(items)
    }
}

// The kit's `hex` also takes small letters, which the cases have none of.
fn digit(b: u8) -> Option<u8>
    ensures { IfSome result (λ d. d ≤ 15) }
{
    match b {
        b'0'..=b'9' => Some(b - b'0'),
        b'A'..=b'F' => Some(b - b'A' + 10),
        _ => None,
    }
}
