ghost use Rattle.std.specs.Prelude.{◌≡◌, map, reverse, IfOk};
ghost use Rattle.scheduler.specs.History.{History};
ghost use Rattle.scheduler.specs.Needs.{NeedsMet};
ghost use Rattle.scheduler.specs.Rules.{plan_of, call_of, Follows, Certified};

use crate::calls::{Call, Event};
use crate::scheduler::Scheduler;
use demand::Binder;
use std::alloc::{AllocError, Global};

// Makes a scheduler over the binder, makes the calls on it in turn, and answers each call with its answer. Want of memory is
// the only error. What is answered is a history over the binder, here in the order of the calls: it follows the rules, no other
// one with these calls does, it obeys both laws, and a component that keeps to its sheet has its needs met.
pub fn run<B: Binder + Drop>(
    heap: Global,
    binder: B,
    calls: &[Call],
) -> Result<Vec<Event>, AllocError>
    ensures each_call_answered { IfOk result (λ es. map call_of es.items ≡ calls.now) }
    ensures by_the_rules { IfOk result (λ es. Follows (plan_of B.Binder binder) (reverse es.items)) }
    ensures no_other_answers { IfOk result (λ es. (h : History) → map call_of (reverse h) ≡ calls.now → Follows (plan_of B.Binder binder) h → h ≡ reverse es.items) }
    ensures certified { IfOk result (λ es. Certified (B.Binder.bound binder) (reverse es.items)) }
    ensures needs_met { IfOk result (λ es. NeedsMet (B.Binder.bound binder) (reverse es.items)) }
{
    let mut scheduler = Scheduler::new(binder);
    let mut events = Vec::new(heap);
    for call in calls {
        let event = scheduler.perform(*call);
        events.push(event)?;
    }
    Ok(events)
}
