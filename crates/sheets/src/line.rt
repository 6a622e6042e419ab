ghost use Rattle.std.specs.Prelude.{Some};
ghost use Rattle.sheets.specs.Lines.{line_words};

use std::fmt;

// A straight-line bound as it is written: from `deadline` ticks on, `burst` units at once and then `rate` units every `per`
// ticks.
#[derive(Clone, Copy, PartialEq, Eq, Debug)]
pub struct Line {
    pub deadline: u16,
    pub burst: u16,
    pub per: u16,
    pub rate: u16,
}

// The fields, each behind its name.
impl fmt::Display for Line {
    ghost output = { λ x. Some (line_words x) };

    fn fmt<W: fmt::Write>(&self, f: &mut fmt::Formatter<W>) -> fmt::Result {
        let Line {
            deadline,
            burst,
            per,
            rate,
        } = *self;
        write!(f, "deadline {deadline} burst {burst} rate {rate} per {per}")
    }
}
