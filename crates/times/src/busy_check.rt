// The check 4, which plan makes too: that a table has a busy period.

ghost use Rattle.tables.specs.inside.Rows.{table_in};
ghost use Rattle.sides.specs.inside.Asks.{AsksFront};
ghost use Rattle.times.specs.inside.Given.{BusyChecked};

use sides::Ask;
use tables::{MOST_ROWS, Refusal, Tasks};

// The busy period of a table, from what its rows ask with.
pub fn check_busy(tasks: &Tasks, asks: &[Ask; MOST_ROWS]) -> Result<u32, Refusal>
    requires { AsksFront (table_in tasks.now.rows tasks.now.n) asks.now }
    ensures { BusyChecked (table_in tasks.now.rows tasks.now.n) result }
{
    match sides::periods::busy_period(&asks[..tasks.n]) {
        Some(period) => Ok(period as u32),
        None => Err(Refusal::NoBusy),
    }
}
