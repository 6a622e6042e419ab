ghost use Rattle.std.specs.Prelude.{length};
ghost use Rattle.demand.specs.Admission.{demand};
ghost use Rattle.sheets.specs.Sheets.{component_bound};
ghost use Rattle.sheet_binder.specs.Declarations.{declarations};
ghost use Rattle.sheets.specs.Texts.{Appends};
ghost use Rattle.report.specs.Text.{slack_line, verdict_line};

use demand::{Slack, TestRefusal, total_demand};
use sheet_binder::SheetBinder;
use std::alloc::AllocError;
use std::fmt::Write;

// Appends the line on the least slack, or on the excess.
pub(crate) fn write_slack(
    text: &mut String,
    verdict: Result<(), TestRefusal>,
    binder: &SheetBinder,
    least: Slack,
) -> Result<(), AllocError>
    ensures { Appends text.old text.new result (slack_line verdict (demand (length (declarations binder.now)) (component_bound (declarations binder.now))) least.length least.free) }
{
    let Slack { length, free } = least;
    match verdict {
        Err(TestRefusal::DemandExceeds(at)) => {
            let excess = total_demand(binder, at).saturating_sub(u64::from(at));
            writeln!(text, "exceeded by {excess} at length {at}")
        }
        Err(TestRefusal::GainsExceed) => writeln!(
            text,
            "least slack {free} at length {length}, and it falls without end"
        ),
        Ok(()) | Err(TestRefusal::SheetCount) => {
            writeln!(text, "least slack {free} at length {length}")
        }
    }
}

// Appends the verdict.
pub(crate) fn write_verdict(
    text: &mut String,
    verdict: Result<(), TestRefusal>,
) -> Result<(), AllocError>
    ensures { Appends text.old text.new result (verdict_line verdict) }
{
    match verdict {
        Ok(()) => writeln!(text, "admitted"),
        Err(refusal) => {
            let (number, length) = refusal.numbers();
            writeln!(text, "refused {number} at {length}: {refusal}")
        }
    }
}
