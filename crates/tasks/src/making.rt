ghost use Rattle.std.specs.Prelude.{◌≡◌, ◌≤◌, true, not, List, map, length, take, IfOk, if◌then◌else◌, Ok};
ghost use Rattle.std.specs.List.{AllByRecursion, position};
ghost use Rattle.sheets.specs.Rows.{sound_rows};
ghost use Rattle.tasks.specs.Tasks.{power_below, power_above, task_sound, rounded, alike, copies_of, Ascending, Grouped, crowded, refused_by, tasks_in_range, tasks_judged};
ghost use Rattle.demand.specs.Admission.{first_where};
ghost use Rattle.sheets.specs.Faults.{meaning};
ghost use Rattle.tasks.specs.declared.task.MakeRefusal.TheVariants.{NoRoom};
ghost use Rattle.tasks.specs.Placing.{placed, no_room};
ghost use Rattle.sheets.specs.declared.row.Row.{Row};

use crate::task::{MakeRefusal, Task};
use arrayvec::ArrayVec;
use sheets::{Row, lies_in};

// The rows that a task list makes, in the first `len` slots. Slots at and past `len` have no meaning. An array with a length, since
// these rows are `Copy` and the library's `ArrayVec` is not.
#[derive(Clone, Copy)]
pub struct TaskRows {
    pub rows: [Row; 8],
    pub len: usize,
}

impl TaskRows {
    // These rows, in the first slots.
    fn holding(rows: &[Row]) -> TaskRows
        requires { length rows.now ≤ 8 }
        ensures rows { take result.len result.rows ≡ rows.now }
        ensures len { result.len ≡ length rows.now }
    {
        let len = rows.len();
        let mut held = [Row::default(); 8];
        held[0..len].copy_from_slice(rows);
        TaskRows { rows: held, len }
    }
}

// The largest of the powers of two from 1 to 4,096 that is at most x.
fn round_down(x: u16) -> u16
    ensures { result ≡ power_below 12 x }
{
    1 << x.checked_ilog2().unwrap_or(0).min(12)
}

// The smallest of the powers of two from 1 to 4,096 that is at least x.
fn round_up(x: u16) -> u16
    ensures { result ≡ power_above 12 x }
{
    x.min(4096).next_power_of_two()
}

fn is_in_range(task: &Task) -> bool
    ensures { result ≡ task_sound task.now }
{
    lies_in(1, 8191, task.period)
        && lies_in(1, task.period, task.deadline)
        && lies_in(1, 4096, task.budget)
}

// The row of the task alone.
fn row_of(task: &Task) -> Row
    ensures { result ≡ rounded task.now }
{
    Row {
        period: round_down(task.period),
        deadline: round_down(task.deadline),
        budget: round_up(task.budget),
        copies: 1,
    }
}

// Whether the rows differ in nothing but their copies.
fn are_alike(a: &Row, b: &Row) -> bool
    ensures { result ≡ alike a.now b.now }
{
    a.key() == b.key()
}

// The copies of a row that is like this one, 0 of another.
fn copies_like(row: &Row, held: &Row) -> u64
    ensures value { result ≡ (if alike row.now held.now then held.now.copies else 0) }
    ensures few { result ≤ 65535 }
{
    if are_alike(row, held) {
        u64::from(held.copies)
    } else {
        0
    }
}

// How many copies the rows like this one have together.
fn copies_held(row: &Row, rows: &[Row]) -> u64
    requires { length rows.now ≤ 8 }
    ensures { result ≡ copies_of row.now rows.now }
{
    rows.iter().map(|held| copies_like(row, held)).sum()
}

// Puts a row among others that stand in sheet order: to the row that it is like, or to its place.
fn insert_row(row: Row, rows: &mut ArrayVec<Row, 8>)
    requires ordered { Ascending rows.old.items }
    requires room { length (placed row rows.old.items) ≤ 8 }
    requires few_copies { (row.copies ≤ 16) × AllByRecursion (λ r. r.copies ≤ 16) rows.old.items }
    ensures { rows.new.items ≡ placed row rows.old.items }
{
    match rows.binary_search_by_key(&row.key(), |held| held.key()) {
        Ok(i) => rows[i].copies += row.copies,
        Err(i) => rows.insert(i, row),
    }
}

// The first task that is out of range, if any.
fn first_out_of_range(tasks: &[Task]) -> Option<usize>
    ensures { result ≡ position (λ t. not (task_sound t)) tasks.now }
{
    tasks.iter().position(|task| !is_in_range(task))
}

// The list's size, then every task's range.
fn judge_tasks(tasks: &[Task]) -> Result<(), MakeRefusal>
    ensures { result ≡ tasks_in_range tasks.now }
{
    if tasks.is_empty() {
        return Err(MakeRefusal::TaskOutOfRange(0));
    }
    if tasks.len() > 64 {
        return Err(MakeRefusal::TaskOutOfRange(64));
    }
    match first_out_of_range(tasks) {
        Some(i) => Err(MakeRefusal::TaskOutOfRange(i)),
        None => Ok(()),
    }
}

// Whether a task whose row this is would need a ninth row or a seventeenth copy. By the copies of at most eight rows, as `no_room`
// says it: a search would answer whether there is such a row, and would still have to ask for its copies.
fn is_crowded(row: &Row, rows: &[Row]) -> bool
    requires { length rows.now ≤ 8 }
    ensures { result ≡ no_room (copies_of row.now rows.now) (length rows.now) }
{
    let copies = copies_held(row, rows);
    copies >= 16 || (copies == 0 && rows.len() >= 8)
}

// The rows of tasks that are in range. What is promised of them is handed on to `rows_of_tasks` and to the sheet that is made of them.
fn group_tasks(tasks: &[Task]) -> Result<ArrayVec<Row, 8>, MakeRefusal>
    requires { tasks_in_range tasks.now ≡ Ok tt }
    ensures answer { meaning (λ _. tt {0}) result ≡ refused_by NoRoom (first_where (crowded (map rounded tasks.now)) 0 (length tasks.now)) }
    ensures grouped { IfOk result (λ r. Grouped (map rounded tasks.now) r.items) }
    ensures sound { IfOk result (λ r. (length r.items ≤ 8) × (sound_rows r.items ≡ true)) }
{
    let mut rows = ArrayVec::new();
    for (i, task) in tasks.iter().enumerate() {
        let row = row_of(task);
        if is_crowded(&row, rows.as_slice()) {
            return Err(MakeRefusal::NoRoom(i));
        }
        insert_row(row, &mut rows);
    }
    Ok(rows)
}

// The rows of a sheet for these tasks: rounded, grouped and counted, in sheet order. There are no other such rows, and the rules
// accept them.
pub fn rows_of_tasks(tasks: &[Task]) -> Result<TaskRows, MakeRefusal>
    ensures answer { meaning (λ _. tt {0}) result ≡ tasks_judged tasks.now }
    ensures grouped { IfOk result (λ r. Grouped (map rounded tasks.now) (take r.len r.rows)) }
    ensures no_other { IfOk result (λ r. (rs : List Row) → Grouped (map rounded tasks.now) rs → rs ≡ take r.len r.rows) }
    ensures sound { IfOk result (λ r. (r.len ≤ 8) × (sound_rows (take r.len r.rows) ≡ true)) }
{
    judge_tasks(tasks)?;
    let rows = group_tasks(tasks)?;
    Ok(TaskRows::holding(rows.as_slice()))
}
