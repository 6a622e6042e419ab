ghost use Rattle.std.specs.Prelude.{◌≡◌, Ok};
ghost use Rattle.demand.specs.Admission.{total, demand, first_exceeded, admission, slack, DemandFits, Tightest};
ghost use Rattle.demand.specs.Verdicts.{verdict_numbers};

use crate::binder::Binder;
use crate::verdict::TestRefusal;

// A length of window, and the units that stay free in it.
#[derive(Clone, Copy, PartialEq, Eq, Debug)]
pub struct Slack {
    pub length: u32,
    pub free: u64,
}

// The units that all components may demand together in a window of `length` ticks.
pub fn total_demand<B: Binder>(binder: &B, length: u32) -> u64
    ensures { result ≡ demand (B.Binder.count binder.now) (B.Binder.bound binder.now) length }
{
    (0..binder.count()).map(|k| binder.bound(k, length)).sum()
}

// The sum of the components' gains.
pub fn total_gain<B: Binder>(binder: &B) -> u64
    ensures { result ≡ total (B.Binder.count binder.now) (B.Binder.gain binder.now) }
{
    (0..binder.count()).map(|k| binder.gain(k)).sum()
}

// The shortest length from 1 to 8,192 at which the bounds add up to more than that length, if there is one.
fn first_exceeded<B: Binder>(binder: &B) -> Option<u32>
    ensures { result ≡ first_exceeded (demand (B.Binder.count binder.now) (B.Binder.bound binder.now)) 1 8192 }
{
    (1..8193u32).find(|&length| total_demand(binder, length) > u64::from(length))
}

// Whether the binder's components may share the core, and if not, why.
pub fn admit<B: Binder>(binder: &B) -> Result<(), TestRefusal>
    ensures { result ≡ admission (B.Binder.count binder.now) (B.Binder.bound binder.now) (B.Binder.gain binder.now) }
{
    if !(1..=8).contains(&binder.count()) {
        return Err(TestRefusal::SheetCount);
    }
    if let Some(length) = first_exceeded(binder) {
        return Err(TestRefusal::DemandExceeds(length));
    }
    if total_gain(binder) > 4096 {
        return Err(TestRefusal::GainsExceed);
    }
    Ok(())
}

// The refusal's number with the length, (0, 0) where there is none: in numbers, since that is how the rules list a verdict and boot
// code is given it.
pub fn verdict_numbers(answer: Result<(), TestRefusal>) -> (u32, u32)
    ensures { result ≡ verdict_numbers answer }
{
    match answer {
        Ok(()) => (0, 0),
        Err(refusal) => refusal.numbers(),
    }
}

// The admission test, its verdict in numbers, as the rules list them and boot code is given them.
pub fn admission_test<B: Binder>(binder: &B) -> (u32, u32)
    ensures verdict { result ≡ verdict_numbers (admission (B.Binder.count binder.now) (B.Binder.bound binder.now) (B.Binder.gain binder.now)) }
    ensures admitted_exactly_when_demand_fits { (result ≡ (0, 0) → DemandFits (B.Binder.count binder.now) (B.Binder.bound binder.now)) × (DemandFits (B.Binder.count binder.now) (B.Binder.bound binder.now) → result ≡ (0, 0)) }
{
    verdict_numbers(admit(binder))
}

// The units that stay free in a window of that length.
fn slack_at<B: Binder>(binder: &B, length: u32) -> Slack
    ensures length { result.length ≡ length }
    ensures free { result.free ≡ slack (B.Binder.count binder.now) (B.Binder.bound binder.now) length }
{
    Slack {
        length,
        free: u64::from(length).saturating_sub(total_demand(binder, length)),
    }
}

// The shortest length from 1 to 8,192 at which the fewest units stay free, and how many do.
pub fn tightest<B: Binder>(binder: &B) -> Slack
    ensures { Tightest (B.Binder.count binder.now) (B.Binder.bound binder.now) result.length result.free }
{
    (1..8193u32)
        .map(|length| slack_at(binder, length))
        .min_by_key(|slack| slack.free)
        .unwrap()
}
