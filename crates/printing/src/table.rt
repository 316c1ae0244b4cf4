// The planned table that is printed, and its rows.

ghost use Rattle.std.specs.Prelude.{◌≡◌, ◌*◌, ◌<◌, ◌≤◌, length};
ghost use Rattle.tables.specs.Table.{most_rows};
ghost use Rattle.tables.specs.Planned.{planned_width};

use tables::{MOST_ROWS, PLANNED_WIDTH, Refusal};

// The numbers of a planned table, and how many rows they are.
#[derive(Clone, Copy)]
pub struct Planned<'a> {
    pub numbers: &'a [u32],
    pub n: usize,
    pub ghost whole: { length numbers.now ≡ planned_width * n },
    pub ghost some: { 1 ≤ n },
    pub ghost few: { n ≤ most_rows },
}

// One row of a planned table.
#[derive(Clone, Copy)]
pub struct PlannedRow {
    pub rank: u32,
    pub len: u32,
    pub response: u32,
}

impl<'a> Planned<'a> {
    ghost use Rattle.printing.specs.inside.Rows.{RowsIn, row_in};

    // The check 1.
    pub fn check(numbers: &'a [u32]) -> Result<Self, Refusal>
        ensures { RowsIn numbers.now result }
    {
        let count = numbers.len();
        if count == 0 || PLANNED_WIDTH * MOST_ROWS < count || count % PLANNED_WIDTH != 0 {
            return Err(Refusal::Shape);
        }
        Ok(Planned {
            numbers,
            n: count / PLANNED_WIDTH,
        })
    }

    // Row i.
    pub fn row(&self, i: usize) -> PlannedRow
        requires { i < self.now.n }
        ensures { result ≡ row_in self.now.numbers.now i }
    {
        let at = PLANNED_WIDTH * i;
        PlannedRow {
            rank: self.numbers[at],
            len: self.numbers[at + 1],
            response: self.numbers[at + 2],
        }
    }
}
