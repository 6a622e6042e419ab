ghost use Rattle.std.specs.Prelude.{◌≡◌, IfOk, string_bytes};
ghost use Rattle.std.specs.List.{flat_map};
ghost use Rattle.sheets.specs.Texts.{Appends};
ghost use Rattle.transcript.specs.Text.{fault_line, refused_line, tick_line, event_line, unreadable_line};

use demand::{Refusal, TestRefusal};
use scheduler::{Event, Ticked};
use sheets::FileFault;
use std::alloc::{AllocError, Global};
use std::fmt::Write;

// The line for a fault of the binder file.
pub(crate) fn line_for_fault(heap: Global, fault: &FileFault) -> Result<String, AllocError>
    ensures { IfOk result (λ s. string_bytes s ≡ fault_line fault.now) }
{
    let (number, _, place) = fault.numbers();
    format!(in heap; "file {number} at {place}\n")
}

// The line for a binder that is not admitted.
pub(crate) fn line_for_refusal(heap: Global, refusal: &TestRefusal) -> Result<String, AllocError>
    ensures { IfOk result (λ s. string_bytes s ≡ refused_line refusal.now) }
{
    let (number, length) = refusal.numbers();
    format!(in heap; "refused {number} at {length}\n")
}

// Appends the line for an event.
fn write_event(text: &mut String, event: &Event) -> Result<(), AllocError>
    ensures { Appends text.old text.new result (event_line event.now) }
{
    match *event {
        Event::Arrived { job, .. } => writeln!(text, "job {job}"),
        Event::Finished { job, units } => writeln!(text, "finished {job} used {units}"),
        Event::Ticked(
            Ticked {
                ran: Some(job),
                held,
                cut,
            },
        ) => writeln!(text, "ran {job} held {held} cut {cut}"),
        Event::Ticked(
            Ticked {
                ran: None,
                held,
                cut,
            },
        ) => writeln!(text, "idle held {held} cut {cut}"),
        Event::Refused { why, .. } => {
            let number = why.number();
            writeln!(text, "refused {number}")
        }
    }
}

// Appends a line for each event.
pub(crate) fn write_events(text: &mut String, events: &[Event]) -> Result<(), AllocError>
    ensures { Appends text.old text.new result (flat_map event_line events.now) }
{
    for event in events {
        write_event(text, event)?;
    }
    Ok(())
}

// Appends the line that says which line of the input could not be read, if there is one.
pub(crate) fn write_unreadable(
    text: &mut String,
    unreadable: Option<usize>,
) -> Result<(), AllocError>
    ensures { Appends text.old text.new result (unreadable_line unreadable) }
{
    match unreadable {
        Some(number) => writeln!(text, "line {number} unreadable"),
        None => Ok(()),
    }
}
