ghost use Rattle.std.specs.Prelude.{◌≡◌, ◌<◌, ◌≤◌, [], ◌∷◌, length, Ok, Err};
ghost use Rattle.binder_file.specs.Format.{decode, record_bytes};
ghost use Rattle.binder_file.specs.Writing.{encode};
ghost use Rattle.sheets.specs.Faults.{meaning, value_or, fault_numbers};
ghost use Rattle.sheets.specs.Sheets.{Declaration};
ghost use Rattle.sheet_binder.specs.Declarations.{declarations};
ghost use Rattle.sheets.specs.Kinds.{making_judged};
ghost use Rattle.sheets.specs.declared.fault.FileFault.{FileFault};

use crate::record::Record;
use sheet_binder::SheetBinder;
use sheets::{FileFault, RecordStart};

// The binder of the file's sheets.
#[tactic(auto, using(crate::proofs::Format::ends))]
pub(crate) fn read_sheets(bytes: &[u8]) -> Result<SheetBinder, FileFault>
    ensures { meaning declarations result ≡ decode bytes.now }
{
    let mut start = RecordStart::FIRST;
    if bytes.is_empty() {
        return Err(FileFault::RecordCount(start.at(0)));
    }
    let mut binder = SheetBinder::new();
    // no `for`: where a record begins is known only once the one before it is read, and the limit of eight comes between the two;
    // `as` from a `u32` to a `usize`, which no `From` takes
    while (start.place as usize) < bytes.len() {
        if start.index == 8 {
            return Err(FileFault::RecordCount(start.at(0)));
        }
        let record = Record::at(bytes, start)?;
        let sheet = record.sheet()?;
        binder.add(sheet)?;
        start = record.following();
    }
    Ok(binder)
}

// Replaces the binder's sheets by those of the file, or refuses the file and leaves the binder as it is. A file of one record
// gets the answer that making a sheet of the record's fields gets. Writing what was read gives the file again.
#[tactic(auto, using(crate::proofs::Facts::file_facts))]
pub fn read_file(binder: &mut SheetBinder, bytes: &[u8]) -> Result<(), FileFault>
    ensures answer { result ≡ meaning (λ _. tt {0}) (decode bytes.now) }
    ensures sheets { declarations binder.new ≡ value_or (decode bytes.now) (declarations binder.old) }
    ensures alone_as_made { (d : Declaration) → bytes.now ≡ record_bytes d → (result ≡ making_judged d (record { index = 0; place = 0 })) × (result ≡ Ok tt → declarations binder.new ≡ d ∷ []) }
    ensures writes_back { result ≡ Ok tt → encode (declarations binder.new) ≡ bytes.now }
    ensures one_to_eight { result ≡ Ok tt → (1 ≤ length (declarations binder.new)) × (length (declarations binder.new) ≤ 8) }
    ensures near { (e : FileFault) → result ≡ Err e → (fault_numbers e).2 < 65536 }
    ensures kept { (e : FileFault) → result ≡ Err e → binder.new ≡ binder.old }
{
    *binder = read_sheets(bytes)?;
    Ok(())
}
