ghost use Rattle.std.specs.Prelude.{◌≡◌, ◌+◌, ◌-◌, ◌*◌, ◌/◌, ◌<◌, ◌≤◌, true, false, length, Err, IfSome, IfNone, IfOk, IfErr};
ghost use Rattle.binder_file.specs.Format.{word_at, fields_at, length_at, kind_at, whole_fields, body_judged, record_judged, next_start};
ghost use Rattle.sheets.specs.Faults.{meaning};
ghost use Rattle.sheet_binder.specs.Declarations.{declared};

use arrayvec::ArrayVec;
use line_sheet::LineSheet;
use row_sheet::RowSheet;
use sheet_binder::Sheet;
use sheets::{FileFault, RecordStart, SheetKind};

// A record that lies whole in its file: the file has the record's length and kind, and as many bytes as the length says.
#[derive(Clone, Copy)]
pub(crate) struct Record<'a> {
    file: &'a [u8],
    start: RecordStart,
    ghost head: { start.place + 4 ≤ length file.now },
    ghost whole: { start.place + 2 + length_at file.now start ≤ length file.now },
}

// The number of two bytes at `place`.
fn word(file: &[u8], place: usize) -> u16
    requires { place + 2 ≤ length file.now }
    ensures { result ≡ word_at file.now place }
{
    u16::from_le_bytes([file[place], file[place + 1]])
}

impl<'a> Record<'a> {
    // The record at `start`, unless the file ends inside it.
    pub(crate) fn at(file: &'a [u8], start: RecordStart) -> Result<Record<'a>, FileFault>
        ensures found { IfOk result (λ r. (r.file.now ≡ file.now) × (r.start ≡ start)) }
        ensures fault { IfErr result (λ fault. record_judged file.now start ≡ Err fault) }
    {
        // `as` from a `u32` to a `usize`, which no `From` takes
        let place = start.place as usize;
        let rest = file.len().saturating_sub(place);
        if rest < 4 || rest < 2 + usize::from(word(file, place)) {
            return Err(FileFault::CutShort(start.at(0)));
        }
        Ok(Record { file, start })
    }

    // Where in the file the record begins, by `as` once more.
    fn place(&self) -> usize
        ensures { result ≡ self.now.start.place }
    {
        self.start.place as usize
    }

    // How many bytes of the record follow its length.
    fn length(&self) -> u16
        ensures { result ≡ length_at self.now.file.now self.now.start }
    {
        word(self.file, self.place())
    }

    // The number that names the record's kind.
    fn kind(&self) -> u16
        ensures { result ≡ kind_at self.now.file.now self.now.start }
    {
        word(self.file, self.place() + 2)
    }

    // How many fields the record has, where it has a kind and at most 40 whole fields.
    fn field_count(&self) -> Option<usize>
        ensures counted { let n = length_at self.now.file.now self.now.start in IfSome result (λ count. (whole_fields n ≡ true) × (count ≡ (n - 2) / 2) × (count ≤ 40)) }
        ensures refused { let n = length_at self.now.file.now self.now.start in IfNone result (whole_fields n ≡ true → 40 < (n - 2) / 2) }
    {
        let size = usize::from(self.length()).checked_sub(2)?;
        if size % 2 != 0 || size > 80 {
            return None;
        }
        Some(size / 2)
    }

    // So many fields, not wrapped in an answer, which would copy them once more. They are put into an array by their index: a push
    // for each would store the vector's length each time.
    fn fields(&self, count: usize) -> ArrayVec<u16, 40>
        requires { (count ≤ 40) × (self.now.start.place + 4 + 2 * count ≤ length self.now.file.now) }
        ensures { result.items ≡ fields_at self.now.file.now (self.now.start.place + 4) count }
    {
        let place = self.place() + 4;
        let (pairs, _) = self.file[place..place + 2 * count].as_chunks::<2>();
        let mut words = [0; 40];
        for (i, pair) in pairs.iter().enumerate() {
            words[i] = u16::from_le_bytes(*pair);
        }
        let mut fields = ArrayVec::from(words);
        fields.truncate(count);
        fields
    }

    // The sheet in the record's body, if that is one of the kind S.
    #[tactic(auto, using(crate::proofs::Format::body_refused))]
    fn body<S: SheetKind>(&self) -> Result<S, FileFault>
        ensures { meaning S.SheetKind.declares result ≡ body_judged S.SheetKind.judged self.now.file.now self.now.start }
    {
        let fault = FileFault::WrongLength(self.start.at(0));
        let count = self.field_count().ok_or(fault)?;
        S::from_fields(&self.fields(count), self.start)
    }

    // The record's sheet.
    pub(crate) fn sheet(&self) -> Result<Sheet, FileFault>
        ensures { meaning declared result ≡ record_judged self.now.file.now self.now.start }
    {
        match self.kind() {
            RowSheet::KIND => self.body().map(Sheet::Rows),
            LineSheet::KIND => self.body().map(Sheet::Line),
            _ => Err(FileFault::UnknownKind(self.start.at(0))),
        }
    }

    // Where the record behind this one begins.
    pub(crate) fn following(&self) -> RecordStart
        requires { (self.now.start.index < 8) × (self.now.start.place ≤ 65537 * self.now.start.index) }
        ensures { result ≡ next_start self.now.file.now self.now.start }
    {
        RecordStart {
            index: self.start.index + 1,
            place: self.start.place + 2 + u32::from(self.length()),
        }
    }
}
