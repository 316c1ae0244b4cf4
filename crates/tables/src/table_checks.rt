// The checks 1 and 3, of a slice that is to be a task table.

ghost use Rattle.std.specs.Prelude.{◌≡◌, ◌*◌, ◌≤◌, [], ◌∷◌, length};
ghost use Rattle.tables.specs.Table.{Within, table_of, row_width, most_rows};
ghost use Rattle.tables.specs.Checks.{StartAtFault, RegionAtFault};
ghost use Rattle.tables.specs.inside.Rows.{table_in};
ghost use Rattle.tables.specs.inside.Checked.{Says, FaultInRow, FirstFault, TableChecked};

use crate::{MOST, MOST_ROWS, ROW_WIDTH, Refusal, Row, Tasks};

// Whether a run, a deadline or a spacing is outside 1 to 1,000,000.
fn outside(x: u32) -> bool
    ensures { Says result (Within x → ⊥) }
{
    x < 1 || MOST < x
}

// Whether the start of a middle region is too large, or stands without a length.
fn start_at_fault(start: u32, region: u32) -> bool
    ensures { Says result (StartAtFault start region) }
{
    MOST < start || (0 < start && region == 0)
}

// Whether a middle region ends later than C less 1: what C leaves behind the start cannot wrap, as their sum could.
fn region_at_fault(c: u32, start: u32, region: u32) -> bool
    ensures { Says result (RegionAtFault c start region) }
{
    0 < region && c.saturating_sub(start) <= region
}

// Which of a row's five numbers is the first at fault, where one is.
fn fault_in_row(row: Row) -> Option<usize>
    ensures { FaultInRow (table_in (row ∷ []) 1) 0 result }
{
    if outside(row.c) {
        return Some(0);
    }
    if outside(row.d) {
        return Some(1);
    }
    if outside(row.t) {
        return Some(2);
    }
    if start_at_fault(row.start, row.region) {
        return Some(3);
    }
    if region_at_fault(row.c, row.start, row.region) {
        return Some(4);
    }
    None
}

// The index of the first number at fault, where one is.
fn first_fault(table: &[u32]) -> Option<usize>
    ensures { FirstFault table.now result }
{
    let (fives, _) = table.as_chunks::<ROW_WIDTH>();
    for (i, five) in fives.iter().enumerate() {
        if let Some(k) = fault_in_row(Row::from(*five)) {
            return Some(ROW_WIDTH * i + k);
        }
    }
    None
}

// The rows of a task table; past its n rows stand zeros. Inlined, as its caller is, since each place that hands the rows
// on copies them: 640 bytes of the stack that the header names.
#[inline(always)]
pub fn rows_of(table: &[u32]) -> [Row; MOST_ROWS]
    requires whole { length table.now ≡ row_width * (table_of table.now).n }
    requires few { (table_of table.now).n ≤ most_rows }
    ensures { table_in result (table_of table.now).n ≡ table_of table.now }
{
    let (fives, _) = table.as_chunks::<ROW_WIDTH>();
    let mut rows = [Row::default(); MOST_ROWS];
    for (row, five) in fives.iter().enumerate() {
        rows[row] = Row::from(*five);
    }
    rows
}

// The checks 1 and 3 of a task table, and its rows where both are clear.
#[inline(always)]
pub fn check_table(table: &[u32]) -> Result<Tasks, Refusal>
    ensures { TableChecked table.now result }
{
    let len = table.len();
    if len == 0 || ROW_WIDTH * MOST_ROWS < len || len % ROW_WIDTH != 0 {
        return Err(Refusal::Shape);
    }
    if let Some(at) = first_fault(table) {
        return Err(Refusal::Range(at as u32));
    }
    Ok(Tasks {
        rows: rows_of(table),
        n: len / ROW_WIDTH,
    })
}
