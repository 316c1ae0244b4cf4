// The rows of a task table as structs, and a table of them that is sound.

ghost use Rattle.std.specs.Prelude.{◌≡◌};
ghost use Rattle.tables.specs.Table.{Sound};
ghost use Rattle.tables.specs.inside.Rows.{table_in, cap_in, longer_in, EndsBeforeRun};

use crate::{MOST_ROWS, ROW_WIDTH};

// One row of a task table: its run, deadline and spacing, and the start and the length of its middle region.
#[derive(Clone, Copy, Default)]
pub struct Row {
    pub c: u32,
    pub d: u32,
    pub t: u32,
    pub start: u32,
    pub region: u32,
}

impl From<[u32; ROW_WIDTH]> for Row {
    ghost use Rattle.tables.specs.inside.Rows.{row_at};

    ghost from_gives = { λ five row. row ≡ row_at five 0 };

    fn from([c, d, t, start, region]: [u32; ROW_WIDTH]) -> Row {
        Row {
            c,
            d,
            t,
            start,
            region,
        }
    }
}

// A sound task table: its n rows, and zeros past them.
#[derive(Clone, Copy)]
pub struct Tasks {
    pub rows: [Row; MOST_ROWS],
    pub n: usize,
    pub ghost sound: { Sound (table_in rows n) },
}

// The most that the length of a row's final region may be: what is left of C behind the middle region.
pub fn cap(row: Row) -> u32
    requires { EndsBeforeRun row }
    ensures { result ≡ cap_in row }
{
    row.c - (row.start + row.region)
}

// What a row blocks with where the length of its final region is `len`: the longer of its two regions.
pub fn longer(row: Row, len: u32) -> u32
    ensures { result ≡ longer_in row len }
{
    row.region.max(len)
}
