ghost use Rattle.std.specs.Prelude.{◌≡◌, ℕ, ◌+◌, ◌*◌, ◌≤◌, map, length, take, Ok, Err};
ghost use Rattle.std.specs.List.{flat_map};
ghost use Rattle.sheets.specs.Over.{over};
ghost use Rattle.sheet_binder.specs.Declarations.{declared, declarations};
ghost use Rattle.binder_file.specs.Format.{word_bytes, record_bytes, decode};
ghost use Rattle.binder_file.specs.Writing.{encode, write_judged};
ghost use Rattle.binder_file.specs.declared.refusal.WriteRefusal.{WriteRefusal};

use crate::refusal::WriteRefusal;
use sheet_binder::{Sheet, SheetBinder};
use sheets::SheetKind;

// How many bytes the record of a sheet of any kind has.
#[tactic(auto, using(crate::proofs::Words::length_words))]
fn size_of_record<S: SheetKind>(sheet: &S) -> usize
    ensures size { result ≡ length (record_bytes (S.SheetKind.declares sheet.now)) }
    ensures few { result ≤ 84 }
{
    4 + 2 * sheet.field_count()
}

// The same of a sheet. The kinds are two types, with a line for each.
fn size_of_sheet(sheet: &Sheet) -> usize
    ensures size { result ≡ length (record_bytes (declared sheet.now)) }
    ensures few { result ≤ 84 }
{
    match sheet {
        Sheet::Rows(sheet) => size_of_record(sheet),
        Sheet::Line(sheet) => size_of_record(sheet),
    }
}

// How many bytes the file of these sheets has. Asked for before anything is written, so that a short buffer is refused at once.
// A loop by hand: its invariant says both what is added up and that it fits.
fn size_of_file(sheets: &[Sheet]) -> usize
    requires { length sheets.now ≤ 8 }
    ensures { result ≡ length (encode (map declared sheets.now)) }
{
    let mut size = 0;
    for sheet in sheets {
        size += size_of_sheet(sheet);
    }
    size
}

// Writes the numbers into the first bytes, two bytes each, by the number's index. What is written goes straight into the caller's buffer:
// a vector of the whole file, appended to and then copied, takes three times as long.
fn put_words(words: &[u16], bytes: &mut [u8])
    requires { 2 * length words.now ≤ length bytes.old }
    ensures { bytes.new ≡ over (flat_map word_bytes words.now) bytes.old }
{
    for (i, word) in words.iter().enumerate() {
        let [low, high] = word.to_le_bytes();
        bytes[2 * i] = low;
        bytes[2 * i + 1] = high;
    }
}

// Writes the record of a sheet of any kind into the first bytes.
fn put_record<S: SheetKind>(sheet: &S, bytes: &mut [u8])
    requires { length (record_bytes (S.SheetKind.declares sheet.now)) ≤ length bytes.old }
    ensures { bytes.new ≡ over (record_bytes (S.SheetKind.declares sheet.now)) bytes.old }
{
    let fields = sheet.fields();
    // at most 40 fields, so `as` loses nothing
    put_words(&[(2 + 2 * fields.len()) as u16, S::tag()], bytes);
    put_words(&fields, &mut bytes[4..]);
}

// Writes the record of a sheet into the first bytes.
fn put_sheet(sheet: &Sheet, bytes: &mut [u8])
    requires { length (record_bytes (declared sheet.now)) ≤ length bytes.old }
    ensures { bytes.new ≡ over (record_bytes (declared sheet.now)) bytes.old }
{
    match sheet {
        Sheet::Rows(sheet) => put_record(sheet, bytes),
        Sheet::Line(sheet) => put_record(sheet, bytes),
    }
}

// Writes the records one behind the other into the first bytes.
fn put_sheets(sheets: &[Sheet], bytes: &mut [u8])
    requires { length (encode (map declared sheets.now)) ≤ length bytes.old }
    ensures { bytes.new ≡ over (encode (map declared sheets.now)) bytes.old }
{
    let mut at = 0;
    for sheet in sheets {
        put_sheet(sheet, &mut bytes[at..]);
        at += size_of_sheet(sheet);
    }
}

// Writes the binder's file into the first bytes of the buffer and answers its size, or refuses and leaves the buffer. What is
// written reads back as the same sheets.
#[tactic(auto, using(crate::proofs::Encoding::buffer_back))]
pub fn write_file(binder: &SheetBinder, buffer: &mut [u8]) -> Result<usize, WriteRefusal>
    ensures answer { result ≡ write_judged (declarations binder.now) (length buffer.old) }
    ensures written { (count : ℕ) → result ≡ Ok count → buffer.new ≡ over (encode (declarations binder.now)) buffer.old }
    ensures reads_back { (count : ℕ) → result ≡ Ok count → decode (take count buffer.new) ≡ Ok (declarations binder.now) }
    ensures kept { (e : WriteRefusal) → result ≡ Err e → buffer.new ≡ buffer.old }
{
    let sheets = binder.sheets();
    if sheets.is_empty() {
        return Err(WriteRefusal::NoSheet);
    }
    let size = size_of_file(sheets);
    if buffer.len() < size {
        return Err(WriteRefusal::ShortBuffer(size));
    }
    put_sheets(sheets, buffer);
    Ok(size)
}
