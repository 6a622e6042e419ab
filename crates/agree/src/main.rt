// Runs the library on the cases that the reference made, and says how many agree with it and which do not.

#![tactic(auto)]

mod answers;
mod cases;
mod histories;
mod words;

use cases::agrees;
use std::fs;
use words::Words;

// Says how many cases of a file agree and how many do not; those that do not are named.
fn compare(rt: &HostRuntime, name: &str, cases: &str) -> anyhow::Result<()> {
    let text = fs::read(rt, name)?;
    let mut words = Words::new(rt.alloc(), &text);
    let mut agreed = 0u64;
    let mut others = 0u64;
    // no iterator over lines: words are read on wherever a line ends, and at most so many cases are
    for line in 1..1_000_000u64 {
        if words.is_at_end() {
            break;
        }
        if agrees(&mut words)? {
            agreed = agreed.saturating_add(1);
        } else {
            others = others.saturating_add(1);
            println!(rt; "{name}: line {line} does not agree")?;
        }
    }
    println!(rt; "{agreed} {cases} agree, {others} do not")?;
    Ok(())
}

fn main(rt: HostRuntime) -> anyhow::Result<()> {
    compare(&rt, "cases.txt", "cases")?;
    compare(&rt, "history_cases.txt", "histories")?;
    compare(&rt, "sit_cases.txt", "cases of sit")
}
