// One history: the calls of a line, made on a scheduler over the line's binder.
use crate::answers::Step;
use crate::words::Words;
use binder_file::read_file;
use demand::{Binder, SideBySide};
use scheduler::{Call, Scheduler, run};
use sheet_binder::{Sheet, SheetBinder};
use std::alloc::{AllocError, Global};

// Whether the scheduler agrees with the line, over its kind of binder.
pub(crate) fn history_agrees(words: &mut Words) -> Result<bool, AllocError> {
    match words.letter() {
        b's' => sheet_agrees(words),
        b'f' => file_agrees(words),
        b'p' => pair_agrees(words),
        _ => Ok(false),
    }
}

// The binder of the next word's file, without a sheet where the word has no byte; none where the file is refused.
fn read_binder(words: &mut Words) -> Result<Option<SheetBinder>, AllocError> {
    let file = words.bytes()?;
    let mut binder = SheetBinder::new();
    if !file.is_empty() && read_file(&mut binder, &file).is_err() {
        return Ok(None);
    }
    Ok(Some(binder))
}

// A row sheet or a line alone.
fn sheet_agrees(words: &mut Words) -> Result<bool, AllocError> {
    let binder = read_binder(words)?;
    let steps: Vec<Step> = words.list()?;
    let Some(binder) = binder else {
        return Ok(false);
    };
    match binder.sheets() {
        [sheet] => match *sheet {
            Sheet::Rows(rows) => answers_agree(words.heap, rows, &steps),
            Sheet::Line(line) => answers_agree(words.heap, line, &steps),
        },
        _ => Ok(false),
    }
}

fn file_agrees(words: &mut Words) -> Result<bool, AllocError> {
    let binder = read_binder(words)?;
    let steps: Vec<Step> = words.list()?;
    match binder {
        Some(binder) => answers_agree(words.heap, binder, &steps),
        None => Ok(false),
    }
}

// Two binders side by side.
fn pair_agrees(words: &mut Words) -> Result<bool, AllocError> {
    let first = read_binder(words)?;
    let second = read_binder(words)?;
    let steps: Vec<Step> = words.list()?;
    let (Some(first), Some(second)) = (first, second) else {
        return Ok(false);
    };
    answers_agree(words.heap, SideBySide { first, second }, &steps)
}

// Whether a scheduler over the binder gives the answers: by `perform`, call by call, and as one run. A call that is made a million
// times stands once among the steps, so that the answers are not held as often as that beside those of the run.
fn answers_agree<B: Binder + Copy>(
    heap: Global,
    binder: B,
    steps: &[Step],
) -> Result<bool, AllocError> {
    let called = calls_agree(binder, steps);
    let ran = run_agrees(heap, binder, steps)?;
    Ok(called && ran)
}

fn calls_agree<B: Binder + Drop>(binder: B, steps: &[Step]) -> bool {
    let mut scheduler = Scheduler::new(binder);
    for step in steps {
        for _ in 0..step.times {
            if Some(scheduler.perform(step.call)) != step.answer {
                return false;
            }
        }
    }
    true
}

fn run_agrees<B: Binder + Drop>(
    heap: Global,
    binder: B,
    steps: &[Step],
) -> Result<bool, AllocError> {
    let calls = calls_of(heap, steps)?;
    let ran = run(heap, binder, &calls)?;
    let mut events = ran.iter();
    for step in steps {
        for _ in 0..step.times {
            let event = events.next().copied();
            if event.is_none() || event != step.answer {
                return Ok(false);
            }
        }
    }
    Ok(events.next().is_none())
}

// The calls of the steps, one by one.
fn calls_of(heap: Global, steps: &[Step]) -> Result<Vec<Call>, AllocError> {
    let mut calls = Vec::new(heap);
    for step in steps {
        for _ in 0..step.times {
            calls.push(step.call)?;
        }
    }
    Ok(calls)
}
