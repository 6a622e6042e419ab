// Runs the calls on standard input over the components of `binder.bin`, and prints each answer.

#![tactic(auto)]

use input::{read_opened, read_source};
use std::fs::File;
use transcript::transcript;

fn main(rt: HostRuntime) -> anyhow::Result<()> {
    let heap = rt.alloc();
    let file = read_opened(heap, File::open(&rt, "binder.bin"))?;
    let input = read_source(heap, rt.stdin())?;
    let text = transcript(heap, &file, &input)?;
    print!(rt; "{text}")?;
    Ok(())
}
