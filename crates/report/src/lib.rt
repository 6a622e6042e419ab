// What the program `admit` prints of a binder file.

#![tactic(auto)]

ghost use Rattle.std.specs.Prelude.{◌≡◌, ◌<◌, ◌≤◌, length, IfOk, string_bytes, codes};
ghost use Rattle.binder_file.specs.Format.{decode};
ghost use Rattle.sheet_binder.specs.Declarations.{declarations};
ghost use Rattle.report.specs.Text.{fault_line, Summary, Reported};

mod listing;
mod verdicts;

use binder_file::read_file;
use demand::{admit, tightest, total_gain};
use listing::write_sheets;
use sheet_binder::SheetBinder;
use sheets::FileFault;
use std::alloc::{AllocError, Global};
use std::fmt::Write;
use verdicts::{write_slack, write_verdict};

// The most bytes of a binder file that is read.
const MOST_BYTES: usize = 65536;

// The line for a fault.
fn line_for_fault(heap: Global, fault: &FileFault) -> Result<String, AllocError>
    ensures { IfOk result (λ s. string_bytes s ≡ fault_line fault.now) }
{
    let (number, index, place) = fault.numbers();
    format!(in heap; "file {number} at {place}: record {index} {fault}\n")
}

// The sheets, the sum of their gains, the tightest length and the verdict.
fn summary_of(heap: Global, binder: &SheetBinder) -> Result<String, AllocError>
    ensures { IfOk result (λ s. Summary (declarations binder.now) (string_bytes s)) }
{
    let gains = total_gain(binder);
    let verdict = admit(binder);
    let least = tightest(binder);
    let mut text = String::new(heap);
    write_sheets(&mut text, binder.sheets())?;
    writeln!(text, "gains {gains} of 4096")?;
    write_slack(&mut text, verdict, binder, least)?;
    write_verdict(&mut text, verdict)?;
    Ok(text)
}

// The report on a binder file of at most 65,536 bytes.
pub fn admission_report(heap: Global, bytes: &[u8]) -> Result<String, AllocError>
    ensures too_long { 65536 < length bytes.now → IfOk result (λ s. string_bytes s ≡ codes "input too long\n") }
    ensures report { length bytes.now ≤ 65536 → IfOk result (λ s. Reported (decode bytes.now) (string_bytes s)) }
{
    if bytes.len() > MOST_BYTES {
        return String::from_str(heap, "input too long\n");
    }
    let mut binder = SheetBinder::new();
    match read_file(&mut binder, bytes) {
        Ok(()) => summary_of(heap, &binder),
        Err(fault) => line_for_fault(heap, &fault),
    }
}
