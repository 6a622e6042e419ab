ghost use Rattle.std.specs.Prelude.{◌≡◌, Some};
ghost use Rattle.sheets.specs.Rows.{before, row_words};

use std::fmt;

// One row of a sheet as it is written: `copies` sporadic tasks, each of which releases a job of `budget` units at most once
// every `period` ticks, due `deadline` ticks after its release.
#[derive(Clone, Copy, PartialEq, Eq, Debug, Default)]
pub struct Row {
    pub period: u16,
    pub deadline: u16,
    pub budget: u16,
    pub copies: u16,
}

impl Row {
    // What sheet order goes by: the deadline, then the period, then the budget. Rows with the same key differ in nothing but
    // their copies.
    pub fn key(&self) -> (u16, u16, u16)
        ensures { result ≡ (self.now.deadline, self.now.period, self.now.budget) }
    {
        (self.deadline, self.period, self.budget)
    }

    // Whether this row comes before the other in sheet order.
    pub fn comes_before(&self, other: &Row) -> bool
        ensures { result ≡ before self.now other.now }
    {
        self.key() < other.key()
    }
}

// The fields, each behind its name.
impl fmt::Display for Row {
    ghost output = { λ r. Some (row_words r) };

    fn fmt<W: fmt::Write>(&self, f: &mut fmt::Formatter<W>) -> fmt::Result {
        let Row {
            period,
            deadline,
            budget,
            copies,
        } = *self;
        write!(
            f,
            "period {period} deadline {deadline} budget {budget} copies {copies}"
        )
    }
}
