// What a row of a table asks with: its run, and the inverse of its spacing, by which a product does what a division
// would.
ghost use Rattle.std.specs.Prelude.{◌≡◌, ◌≤◌};
ghost use Rattle.tables.specs.Table.{most};
ghost use Rattle.test.specs.Test.{horizon};
ghost use Rattle.sides.specs.inside.Inverse.{inverse_of};

use tables::Row;

// 2^40, of which an inverse is a fraction: s times the inverse of T over it is s / T, for s and T up to 1,000,000.
const SCALE: u64 = 1099511627776;

#[derive(Clone, Copy, Debug, PartialEq, Eq)]
pub struct Ask {
    pub run: u64,
    pub inverse: u64,
    pub ghost small_run: { run ≤ most },
    pub ghost small_inverse: { inverse ≤ inverse_of 1 },
}

impl Ask {
    ghost use Rattle.sides.specs.inside.Asks.{nothing, releases, part_of};

    // What stands past the last row.
    pub const NOTHING: Ask = Ask { run: 0, inverse: 0 };

    pub(crate) fn of(row: Row) -> Ask
        requires { (row.c ≤ most) × (1 ≤ row.t) }
        ensures { (result.run ≡ row.c) × (result.inverse ≡ inverse_of row.t) }
    {
        Ask {
            run: row.c as u64,
            inverse: SCALE / (row.t as u64) + 1,
        }
    }

    // How often the row is released after the first tick, up to s.
    pub(crate) fn releases(self, s: u64) -> u64
        requires { s ≤ horizon }
        ensures { result ≡ releases self s }
    {
        s * self.inverse / SCALE
    }

    // What it asks for by those releases.
    pub(crate) fn part(self, s: u64) -> u64
        requires { s ≤ horizon }
        ensures { result ≡ part_of self s }
    {
        self.releases(s) * self.run
    }
}
