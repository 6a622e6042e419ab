ghost use Rattle.std.specs.Prelude.{◌≤◌};
ghost use Rattle.scheduler.specs.Steps.{records};
ghost use Rattle.scheduler.specs.Table.{TableKeeps};

mod asking;
mod calling;
mod refusing;

use crate::table::JobTable;
use demand::TestRefusal;

// One run over one binder: the admission test's verdict on the binder, the clock, and the job table.
#[derive(Drop)]
pub struct Scheduler<B> {
    pub(crate) binder: B,
    pub(crate) verdict: Result<(), TestRefusal>,
    pub(crate) clock: u32,
    pub(crate) table: JobTable,
    ghost early: { clock ≤ 1000000 },
    ghost kept: { TableKeeps clock (records table) },
}
