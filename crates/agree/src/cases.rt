// One case: what the reference says of a file, a task list, a history or what `sit` prints, and what the library does with it.
use crate::histories::history_agrees;
use crate::words::{FromWords, Words};
use binder_file::{binder_verdict, read_file, write_file};
use demand::Binder;
use row_sheet::RowSheet;
use sheet_binder::SheetBinder;
use sheets::Row;
use std::alloc::AllocError;
use tasks::Task;
use transcript::transcript;

// Whether the library agrees with the next line.
pub(crate) fn agrees(words: &mut Words) -> Result<bool, AllocError> {
    // A letter says what form the words behind it have, so letters are matched on, here and in the other readers.
    match words.letter() {
        b'r' => read_agrees(words),
        b'b' => boot_agrees(words),
        b'a' => ask_agrees(words),
        b'w' => write_agrees(words),
        b'm' => make_agrees(words),
        b'h' => history_agrees(words),
        b's' => sit_agrees(words),
        _ => Ok(false),
    }
}

fn read_agrees(words: &mut Words) -> Result<bool, AllocError> {
    let file = words.bytes()?;
    let said = match (words.number(), words.number(), words.number()) {
        (0, 0, 0) => Ok(()),
        refusal => Err(refusal),
    };
    let mut binder = SheetBinder::new();
    let answer = read_file(&mut binder, &file).map_err(|fault| {
        let (number, index, place) = fault.numbers();
        (u64::from(number), u64::from(index), place)
    });
    Ok(answer == said)
}

fn boot_agrees(words: &mut Words) -> Result<bool, AllocError> {
    let file = words.bytes()?;
    Ok(words.number() == u64::from(binder_verdict(&file)))
}

fn ask_agrees(words: &mut Words) -> Result<bool, AllocError> {
    let file = words.bytes()?;
    let k = words.middle();
    let length = words.middle();
    let said = (words.number(), words.number());
    let mut binder = SheetBinder::new();
    Ok(read_file(&mut binder, &file).is_ok() && (binder.bound(k, length), binder.gain(k)) == said)
}

// The buffer has to begin with the file where it is written, and to be as it was behind it.
fn write_agrees(words: &mut Words) -> Result<bool, AllocError> {
    let file = words.bytes()?;
    let room = usize::from(words.short());
    let said = match (words.number(), words.number()) {
        (0, count) => Ok(count),
        refusal => Err(refusal),
    };
    let mut binder = SheetBinder::new();
    if read_file(&mut binder, &file).is_err() {
        return Ok(false);
    }
    let mut buffer = vec![in words.heap; 0xAA; room]?;
    // `as` from a `usize` to a `u64`, which no `From` takes, here and below
    let answer = write_file(&binder, &mut buffer)
        .map(|count| count as u64)
        .map_err(|refusal| {
            let (number, needed) = refusal.numbers();
            (u64::from(number), needed as u64)
        });
    let written = if answer.is_ok() { file.as_slice() } else { &[] };
    let kept = buffer
        .strip_prefix(written)
        .is_some_and(|rest| rest.iter().all(|byte| *byte == 0xAA));
    Ok(answer == said && kept)
}

impl FromWords for Task {
    const MOST: u64 = 1000;

    fn from_words(words: &mut Words) -> Task {
        Task {
            period: words.short(),
            deadline: words.short(),
            budget: words.short(),
        }
    }
}

impl FromWords for Row {
    const MOST: u64 = 1000;

    fn from_words(words: &mut Words) -> Row {
        Row {
            period: words.short(),
            deadline: words.short(),
            budget: words.short(),
            copies: words.short(),
        }
    }
}

fn make_agrees(words: &mut Words) -> Result<bool, AllocError> {
    let tasks: Vec<Task> = words.list()?;
    let mut sheet = RowSheet::BUILT_IN;
    let answer = sheet.make_from_tasks(&tasks).map_err(|refusal| {
        let (number, index) = refusal.numbers();
        (u64::from(number), index as u64)
    });
    Ok(match words.number() {
        0 => {
            let rows: Vec<Row> = words.list()?;
            answer.is_ok() && sheet.rows() == rows.as_slice()
        }
        number => answer == Err((number, words.number())),
    })
}

// The file and the input of `sit`, and what it prints.
fn sit_agrees(words: &mut Words) -> Result<bool, AllocError> {
    let file = words.bytes()?;
    let input = words.bytes()?;
    let said = words.bytes()?;
    let text = transcript(words.heap, &file, &input)?;
    Ok(text.as_bytes() == said.as_slice())
}
