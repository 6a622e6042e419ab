// What the program `sit` prints of a binder file and the calls on its standard input.

#![tactic(auto)]

ghost use Rattle.std.specs.Prelude.{◌≡◌, ◌<◌, ◌≤◌, ◌⊎◌, length, IfOk, Ok, string_bytes, codes};
ghost use Rattle.binder_file.specs.Format.{decode};
ghost use Rattle.sheet_binder.specs.Declarations.{declarations};
ghost use Rattle.transcript.specs.Text.{Ran, Transcribed, OnlyText};

mod pieces;
mod reading;
mod writing;

use binder_file::read_file;
use demand::admit;
use reading::Script;
use scheduler::run;
use sheet_binder::SheetBinder;
use std::alloc::{AllocError, Global};
use writing::{line_for_fault, line_for_refusal, write_events, write_unreadable};

// The most bytes that the binder file has, and the input.
const MOST_BYTES: usize = 65536;

// Runs the calls of the input over an admitted binder.
fn text_for_run(heap: Global, binder: SheetBinder, input: &[u8]) -> Result<String, AllocError>
    ensures { IfOk result (λ s. OnlyText (Ran (declarations binder) input.now) (string_bytes s)) }
{
    let script = Script::read(heap, input)?;
    let events = run(heap, binder, &script.calls)?;
    let mut text = String::from_str(heap, "admitted\n")?;
    write_events(&mut text, &events)?;
    write_unreadable(&mut text, script.unreadable)?;
    Ok(text)
}

// The text for a binder: the admission test comes first.
fn text_for_binder(heap: Global, binder: SheetBinder, input: &[u8]) -> Result<String, AllocError>
    ensures { IfOk result (λ s. OnlyText (Transcribed (Ok (declarations binder)) input.now) (string_bytes s)) }
{
    match admit(&binder) {
        Ok(()) => text_for_run(heap, binder, input),
        Err(refusal) => line_for_refusal(heap, &refusal),
    }
}

// What `sit` prints for the bytes of the binder file and of standard input, each of at most 65,536 bytes. Want of memory is the
// only error. What is printed follows the rules, and no other text does.
pub fn transcript(heap: Global, file: &[u8], input: &[u8]) -> Result<String, AllocError>
    ensures too_long { (65536 < length file.now) ⊎ (65536 < length input.now) → IfOk result (λ s. string_bytes s ≡ codes "input too long\n") }
    ensures only_text { length file.now ≤ 65536 → length input.now ≤ 65536 → IfOk result (λ s. OnlyText (Transcribed (decode file.now) input.now) (string_bytes s)) }
{
    if file.len() > MOST_BYTES || input.len() > MOST_BYTES {
        return String::from_str(heap, "input too long\n");
    }
    let mut binder = SheetBinder::new();
    match read_file(&mut binder, file) {
        Ok(()) => text_for_binder(heap, binder, input),
        Err(fault) => line_for_fault(heap, &fault),
    }
}
