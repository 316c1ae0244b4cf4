// The busy period of a table and the active period of a row, each the least fixed point of its right side.
ghost use Rattle.std.specs.Prelude.{◌≤◌, length, ℕ};
ghost use Rattle.tables.specs.Table.{most_rows};
ghost use Rattle.sides.specs.inside.Level.{active_of, busy_of};
ghost use Rattle.sides.specs.inside.Found.{Fixed, FixedWithin, Climbs, BusyOf};

use crate::Ask;

// The longest busy period that is not refused.
const HORIZON: u64 = 1000000;

// The busy period up to the horizon; none where there is none. The level holds all rows of the table. The iteration
// reaches values far past 32 bits, and is left at the first one past the horizon.
pub fn busy_period(level: &[Ask]) -> Option<u64>
    requires { (length level.now ≤ most_rows) × (1 ≤ busy_of level.now 1) }
    ensures { BusyOf level.now result }
{
    let runs = crate::runs_of(level) as u64;
    let mut next = runs;
    loop {
        if HORIZON < next {
            break None;
        }
        let t = next;
        next = crate::busy_side(level, runs, t);
        if next == t {
            break Some(t);
        }
    }
}

// The least fixed point of the right side that a closure computes, climbed to from below.
pub fn climb<F: Fn(u32) -> u32>(side: F, low: u32) -> u32
    requires { (right : ℕ → ℕ) × (lo : ℕ) × Climbs (F.pre side) (F.post side) right lo low }
    ensures { (right : ℕ → ℕ) (lo : ℕ) → Climbs (F.pre side) (F.post side) right lo low → Fixed right lo result }
{
    let mut t = low;
    loop {
        let next = side(t);
        if next == t {
            break t;
        }
        t = next;
    }
}

// The active period of a row, climbed to from what is asked for in the first tick: the level holds the row and those
// above it.
pub fn active_period(level: &[Ask], first: u32) -> u32
    requires { (length level.now ≤ most_rows) × FixedWithin (active_of level.now first) 1 first }
    ensures { Fixed (active_of level.now first) 1 result }
{
    climb(|t| crate::active_side(level, first, t), first)
}
