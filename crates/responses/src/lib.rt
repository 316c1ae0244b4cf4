// The response times of a plan's rows.
#![tactic(auto)]

ghost use Rattle.std.specs.Prelude.{◌≡◌, ◌*◌, ◌≤◌, length};
ghost use Rattle.marks.specs.inside.Marks.{marked};
ghost use Rattle.tables.specs.Table.{most_rows};
ghost use Rattle.tables.specs.Plan.{plan_width, plan_of};
ghost use Rattle.tables.specs.inside.Rows.{table_in};
ghost use Rattle.test.specs.Test.{Response};
ghost use Rattle.sides.specs.inside.Asks.{Asks};
ghost use Rattle.sides.specs.inside.Level.{start_of};
ghost use Rattle.sides.specs.inside.Found.{Fixed, FixedWithin};
ghost use Rattle.responses.specs.inside.Asked.{plan_rows, Ranked, Above, Blocks, Blocking, Planned, Responses};

use sides::Ask;
use sides::periods::{active_period, climb};
use tables::{MOST_ROWS, PLAN_WIDTH, Tasks};

// The start of a job, from its base and climbed to from below: the level holds the rows above.
fn start(level: &[Ask], base: u32, low: u32) -> u32
    requires { (length level.now ≤ most_rows) × FixedWithin (start_of level.now base) 0 low }
    ensures { Fixed (start_of level.now base) 0 result }
{
    climb(|s| sides::start_side(level, base, s), low)
}

// A row of a plan: which row of the table it is, the rows above it as a set, its blocking, and the length of its final
// region.
#[derive(Clone, Copy)]
struct Placed {
    i: usize,
    above: u32,
    blocking: u32,
    len: u32,
}

// The response of a row; room for the level of the row and those above it is lent. The active period and the first
// start begin at what is asked for in the first tick, each other start at the one before plus C.
fn response(tasks: &Tasks, asks: &[Ask], level: &mut [Ask], placed: Placed) -> u32
    requires { Ranked (table_in tasks.now.rows tasks.now.n) asks.now placed.above placed.blocking placed.i placed.len
        × (length level.old ≡ most_rows) }
    ensures { Response (table_in tasks.now.rows tasks.now.n) (marked placed.above) placed.blocking placed.i placed.len
        result }
{
    let i = placed.i;
    let len = placed.len;
    let row = tasks.rows[i];
    let with_own = marks::more(placed.above, i as u32);
    let all = sides::level_of(asks, with_own, level);
    let first = placed.blocking + sides::runs_of(&level[..all]);
    let period = active_period(&level[..all], first);
    let jobs = counting::round_up(period as u64, row.t as u64) as u32;
    let at = marks::place_of(with_own, i as u32);
    let higher = sides::leave_out(level, all, at);
    let mut largest: u32 = 0;
    let mut low = first - len;
    for k in 0..jobs {
        let base = sides::base_of(row, first, len, k);
        let s = start(&level[..higher], base, low);
        largest = largest.max(s + len - k * row.t);
        low = s + row.c;
    }
    largest
}

// The rows of higher rank.
fn above_of(plan: &[u32], rank: u32) -> u32
    requires { plan_rows plan.now ≤ most_rows }
    ensures { Above (plan_of plan.now) (plan_rows plan.now) rank result }
{
    let (rows, _) = plan.as_chunks::<PLAN_WIDTH>();
    let mut set: u32 = 0;
    for (i, &[other, _]) in rows.iter().enumerate() {
        if other < rank {
            set = marks::more(set, i as u32);
        }
    }
    set
}

// What each row of the plan blocks with, and 0 past the rows.
fn blocks_of(tasks: &Tasks, plan: &[u32]) -> [u32; MOST_ROWS]
    requires { length plan.now ≡ plan_width * tasks.now.n }
    ensures { Blocks (table_in tasks.now.rows tasks.now.n) (plan_of plan.now) result }
{
    let (rows, _) = plan.as_chunks::<PLAN_WIDTH>();
    let mut blocks = [0u32; MOST_ROWS];
    for (i, &[_, len]) in rows.iter().enumerate() {
        blocks[i] = tables::longer(tasks.rows[i], len);
    }
    blocks
}

// The blocking at a rank: the most that a row below blocks with, less 1; 0 where there is nothing below.
fn blocking_of(plan: &[u32], blocks: &[u32; MOST_ROWS], rank: u32) -> u32
    requires { plan_rows plan.now ≤ most_rows }
    ensures { Blocking (plan_of plan.now) (plan_rows plan.now) blocks.now rank result }
{
    let (rows, _) = plan.as_chunks::<PLAN_WIDTH>();
    let mut longest: u32 = 0;
    for (i, &[other, _]) in rows.iter().enumerate() {
        if rank < other {
            longest = longest.max(blocks[i]);
        }
    }
    longest.saturating_sub(1)
}

// The response of each row, in table order.
pub fn responses(tasks: &Tasks, asks: &[Ask], plan: &[u32]) -> [u32; MOST_ROWS]
    requires { Planned (table_in tasks.now.rows tasks.now.n) plan.now
        × Asks (table_in tasks.now.rows tasks.now.n) asks.now }
    ensures { Responses (table_in tasks.now.rows tasks.now.n) (plan_of plan.now) result }
{
    let (rows, _) = plan.as_chunks::<PLAN_WIDTH>();
    let blocks = blocks_of(tasks, plan);
    let mut times = [0u32; MOST_ROWS];
    let mut level = [Ask::NOTHING; MOST_ROWS];
    for (i, &[rank, len]) in rows.iter().enumerate() {
        let placed = Placed {
            i,
            above: above_of(plan, rank),
            blocking: blocking_of(plan, &blocks, rank),
            len,
        };
        times[i] = response(tasks, asks, &mut level, placed);
    }
    times
}
