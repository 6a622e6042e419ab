ghost use Rattle.std.specs.Prelude.{◌≡◌, ◌≤◌, length};

pub(crate) mod asking;
mod filling;

use crate::sheet::Sheet;

// A binder of up to eight sheets of any kind. Slots at and past `len` have no meaning, so that equality is not derived. An array
// with a length, since a binder is `Copy` and the library's `ArrayVec` is not.
#[derive(Clone, Copy)]
pub struct SheetBinder {
    pub(crate) sheets: [Sheet; 8],
    pub(crate) len: usize,
    ghost few: { len ≤ 8 },
    ghost slots: { length sheets ≡ 8 },
}
