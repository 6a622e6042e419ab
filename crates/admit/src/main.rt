// Prints whether the components of `binder.bin` may share the core, with a summary of their sheets.

#![tactic(auto)]

use input::read_opened;
use report::admission_report;
use std::fs::File;

fn main(rt: HostRuntime) -> anyhow::Result<()> {
    let file = read_opened(rt.alloc(), File::open(&rt, "binder.bin"))?;
    let text = admission_report(rt.alloc(), &file)?;
    print!(rt; "{text}")?;
    Ok(())
}
