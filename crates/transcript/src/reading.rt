ghost use Rattle.std.specs.Prelude.{◌≡◌, IfOk};
ghost use Rattle.std.specs.Iterator.{YieldsFirstBy, item_count};
ghost use Rattle.scheduler.specs.declared.calls.Call.TheVariants.{Arrive, Finish};
ghost use Rattle.transcript.specs.Input.{before, behind, number, with_number, with_numbers, call_in, lines, calls_in, unreadable_from};

use crate::pieces::{cut_at, number_of};
use scheduler::Call;
use std::alloc::{AllocError, Global};

// The arrive whose component and deadline stand in `numbers`, one blank between them.
fn arrive_with(numbers: &[u8]) -> Option<Call>
    ensures { result ≡ with_numbers Arrive (number (before 32 numbers.now)) (number (behind 32 numbers.now)) }
{
    let (first, second) = cut_at(numbers, b' ');
    let component = number_of(first)?;
    let deadline = number_of(second)?;
    Some(Call::Arrive {
        component,
        deadline,
    })
}

// The finish of the job whose number stands in `digits`.
fn finish_with(digits: &[u8]) -> Option<Call>
    ensures { result ≡ with_number Finish (number digits.now) }
{
    let job = usize::try_from(number_of(digits)?).ok()?;
    Some(Call::Finish { job })
}

// The call that a line says.
#[tactic(auto, using(crate::proofs::Lines::call_by_letter))]
fn call_in(line: &[u8]) -> Option<Call>
    ensures { result ≡ call_in line.now }
{
    match line {
        [b'a', b' ', numbers @ ..] => arrive_with(numbers),
        [b'f', b' ', digits @ ..] => finish_with(digits),
        [b't'] => Some(Call::Tick),
        _ => None,
    }
}

// The lines of an input, without the byte that ends each.
#[derive(Drop)]
struct Lines<'a> {
    rest: &'a [u8],
}

impl<'a> Iterator for Lines<'a> {
    type Item = &'a [u8];

    ghost next_gives = { YieldsFirstBy (λ x. x.now) (λ s. lines s.rest.now) };

    ghost remaining = { item_count (λ s. lines s.rest.now) };

    #[tactic(auto, using(crate::proofs::Lines::lines_more))]
    fn next(&mut self) -> Option<&'a [u8]> {
        if self.rest.is_empty() {
            return None;
        }
        let (line, behind) = cut_at(self.rest, b'\n');
        self.rest = behind;
        Some(line)
    }
}

// What is read of an input: the calls of the lines before the first that says none, and the number of that line.
#[derive(Drop)]
pub(crate) struct Script {
    pub(crate) calls: Vec<Call>,
    pub(crate) unreadable: Option<usize>,
}

impl Script {
    // Reads the input line by line. The first line has the number 1, and each before the unreadable one says a call.
    pub(crate) fn read(heap: Global, input: &[u8]) -> Result<Script, AllocError>
        ensures calls { IfOk result (λ s. s.calls.items ≡ calls_in (lines input.now)) }
        ensures unreadable { IfOk result (λ s. s.unreadable ≡ unreadable_from 1 (lines input.now)) }
    {
        let mut calls = Vec::new(heap);
        let lines = Lines { rest: input };
        for line in lines {
            let Some(call) = call_in(line) else {
                let unreadable = Some(calls.len() + 1);
                return Ok(Script { calls, unreadable });
            };
            calls.push(call)?;
        }
        Ok(Script {
            calls,
            unreadable: None,
        })
    }
}
