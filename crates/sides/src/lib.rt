// The right sides of the test's equations, over a level: what its rows ask with, packed, so that one walk over them
// tests no marks and divides by nothing.
#![tactic(auto)]

mod ask;
pub mod periods;

ghost use Rattle.std.specs.Prelude.{◌≡◌, true, ℕ, ◌+◌, ◌-◌, ◌*◌, ◌≤◌, ◌<◌, length, IfSome};
ghost use Rattle.marks.specs.inside.Marks.{marked, Where};
ghost use Rattle.tables.specs.Table.{most, most_rows};
ghost use Rattle.tables.specs.inside.Rows.{table_in};
ghost use Rattle.test.specs.Test.{horizon};
ghost use Rattle.sides.specs.inside.Asks.{repeated, AsksFront};
ghost use Rattle.sides.specs.inside.Level.{Picked, Vacated, PutBack};
ghost use Rattle.sides.specs.inside.Level.{runs_of, later, busy_of, active_of, start_of};

pub use ask::Ask;
use tables::{MOST_ROWS, Row, Tasks};

// What each row of the table asks with: made once.
pub fn asks_of(tasks: &Tasks) -> [Ask; MOST_ROWS]
    ensures { AsksFront (table_in tasks.now.rows tasks.now.n) result }
{
    let mut asks = [Ask::NOTHING; MOST_ROWS];
    for (i, row) in tasks.rows[..tasks.n].iter().enumerate() {
        asks[i] = Ask::of(*row);
    }
    asks
}

// What the rows of the set ask with, packed at the front of the level; and how many they are.
pub fn level_of<T: Copy>(asks: &[T], set: u32, level: &mut [T]) -> usize
    requires { (length asks.now ≤ most_rows) × ((j : ℕ) → marked set j ≡ true → j < length asks.now)
        × (length level.old ≡ most_rows) }
    ensures few { result ≤ most_rows }
    ensures packed { (none : T) → Picked none asks.now (marked set) level.old level.new result }
{
    for (m, j) in marks::rows(set).enumerate() {
        level[m] = asks[j as usize];
    }
    marks::size(set) as usize
}

// The rows that are released again before t, where they are released at 0.
pub fn again_of(asks: &[Ask], t: u32) -> u32
    requires { (length asks.now ≤ most_rows) × (1 ≤ t) × (t ≤ horizon) }
    ensures { Where (repeated asks.now t) (length asks.now) result }
{
    let s = (t - 1) as u64;
    let mut set: u32 = 0;
    for (i, ask) in asks.iter().enumerate() {
        if 0 < ask.releases(s) {
            set = marks::more(set, i as u32);
        }
    }
    set
}

// A level of m rows without the one at a place, which the last one takes, where there is such a place; and how many
// are left.
pub fn leave_out<T: Copy>(level: &mut [T], m: usize, at: Option<usize>) -> usize
    requires { (m ≤ most_rows) × (length level.old ≡ most_rows) × IfSome at (λ p. p < m) }
    ensures fewer { result ≤ m }
    ensures left { (none : T) → Vacated none at level.old m level.new result }
{
    match at {
        Some(p) => {
            level[p] = level[m - 1];
            m - 1
        }
        None => m,
    }
}

// The level with what a row asks with at its place again, where there is one.
pub fn put_back<T: Copy>(level: &mut [T], at: Option<usize>, ask: T)
    requires { (length level.old ≡ most_rows) × IfSome at (λ p. p < most_rows) }
    ensures { PutBack at ask level.old level.new }
{
    if let Some(p) = at {
        level[p] = ask;
    }
}

// The runs of the level's rows: what they ask for in the first tick.
pub fn runs_of(level: &[Ask]) -> u32
    requires { length level.now ≤ most_rows }
    ensures { result ≡ runs_of level.now }
{
    level.iter().map(|ask| ask.run as u32).sum()
}

// What the rows of the level ask for by their releases after the first tick, up to s.
fn later(level: &[Ask], s: u64) -> u64
    requires { (length level.now ≤ most_rows) × (s ≤ horizon) }
    ensures { result ≡ later level.now s }
{
    level.iter().map(|ask| ask.part(s)).sum()
}

// The busy period's right side, beside the runs: the level holds all rows. It may lie far past 32 bits.
pub fn busy_side(level: &[Ask], runs: u64, t: u64) -> u64
    requires { (length level.now ≤ most_rows) × (runs ≡ runs_of level.now) × (1 ≤ t) × (t ≤ horizon) }
    ensures { result ≡ busy_of level.now t }
{
    runs + later(level, t - 1)
}

// The active period's right side of a row, beside what is asked for in the first tick, blocking and runs: the level
// holds the row and those above it.
pub fn active_side(level: &[Ask], first: u32, t: u32) -> u32
    requires { (length level.now ≤ most_rows) × (1 ≤ t) × (t ≤ horizon) × (active_of level.now first t ≤ horizon) }
    ensures { result ≡ active_of level.now first t }
{
    first + later(level, (t - 1) as u64) as u32
}

// What does not depend on s in the start of a row's job of length q, k others of the row before it: what is asked for
// in the first tick and the runs of the others, but for the job's final region.
pub fn base_of(row: Row, first: u32, q: u32, k: u32) -> u32
    requires { (q ≤ most) × (q ≤ first) × (first + k * row.c - q ≤ horizon) }
    ensures { result ≡ first + k * row.c - q }
{
    first + k * row.c - q
}

// The right side of a start, beside its base: the level holds the rows above. Floor plus one is rounding up one tick
// later.
pub fn start_side(level: &[Ask], base: u32, s: u32) -> u32
    requires { (length level.now ≤ most_rows) × (s ≤ horizon) × (start_of level.now base s ≤ horizon) }
    ensures { result ≡ start_of level.now base s }
{
    base + later(level, s as u64) as u32
}
