// The rank search: the ranks filled from n down to 1, each by the unplaced row that blocks with the least at its
// shortest passing length, the earliest among equals; until every row is placed or no row has a passing length.
#![tactic(auto)]

ghost use Rattle.std.specs.Prelude.{◌≡◌, ◌+◌, ◌*◌, ◌≤◌, ◌<◌};
ghost use Rattle.tables.specs.Table.{most};
ghost use Rattle.tables.specs.inside.Rows.{table_in, EndsBeforeRun};
ghost use Rattle.test.specs.Test.{horizon, Busy};
ghost use Rattle.sides.specs.inside.Asks.{Asks};
ghost use Rattle.search.specs.inside.Worth.{WorthIn};
ghost use Rattle.search.specs.inside.Ended.{Ended};

use sides::Ask;
use tables::{MOST_ROWS, PLAN_WIDTH, Row, Tasks};

// A whole plan, two numbers a row as `times` takes it, and each row's response.
#[derive(Drop)]
pub struct Filled {
    pub plan: [u32; PLAN_WIDTH * MOST_ROWS],
    pub times: [u32; MOST_ROWS],
}

// A row that may take the rank: its shortest passing length, what it blocks with at that length, and its response.
#[derive(Clone, Copy)]
struct Candidate {
    row: u32,
    length: u32,
    longer: u32,
    response: u32,
}

// The longest length worth a try, with which a row blocks with less than the best so far; none where it blocks with as
// much even with length 1. A row that cannot beat the best cannot take the rank.
fn cap_of(row: Row, best: Option<Candidate>) -> Option<u32>
    requires { EndsBeforeRun row }
    ensures { WorthIn row best result }
{
    let cap = tables::cap(row);
    let Some(best) = best else {
        return Some(cap);
    };
    if best.longer <= tables::longer(row, 1) {
        return None;
    }
    Some(cap.min(best.longer - 1))
}

// The length to try next: the cap first, then the middle of what is left. Passing is closed upward in the length.
fn next_length(low: u32, high: u32, cap: u32) -> u32
    requires { (high ≤ cap + 1) × (cap ≤ most) × (low ≤ high) }
    ensures { low < high → (low ≤ result) × (result < high) }
{
    if cap < high {
        return cap;
    }
    low + (high - low) / 2
}

// As many rows are unplaced as the rank says that is filled next. Those of them that are released again in the busy
// period stand in the rank's level. The active period, and what is asked for in its first tick, are the same for every
// row tried at a rank. No row is tried after one that blocks with 1.
pub fn fill(tasks: Tasks, asks: &[Ask], busy: u32) -> Result<Filled, u32>
    requires { Busy (table_in tasks.rows tasks.n) busy × (busy ≤ horizon)
        × Asks (table_in tasks.rows tasks.n) asks.now }
    ensures { Ended (table_in tasks.rows tasks.n) result }
{
    let mut filled = Filled {
        plan: [0; PLAN_WIDTH * MOST_ROWS],
        times: [0; MOST_ROWS],
    };
    let mut level = [Ask::NOTHING; MOST_ROWS];
    let again = sides::again_of(asks, busy);
    let mut unplaced = marks::whole(tasks.n as u32);
    let mut runs = sides::runs_of(asks);
    let mut blocking: u32 = 0;
    'ranks: while unplaced != 0 {
        let rank = marks::size(unplaced);
        let packed = marks::both(unplaced, again);
        let all = sides::level_of(asks, packed, &mut level);
        let first = blocking + runs;
        let period = sides::periods::active_period(&level[..all], first);
        let mut best: Option<Candidate> = None;
        let mut rest = unplaced;
        'rows: while rest != 0 {
            let i = marks::next(rest);
            rest = marks::less(rest, i);
            let own = tasks.rows[i as usize];
            let Some(cap) = cap_of(own, best) else {
                continue 'rows;
            };
            // The others stand above it while it is tried: in the level the last one takes its place. A row that is
            // not released again is not in it.
            let at = marks::place_of(packed, i);
            let above = sides::leave_out(&mut level, all, at);
            // No length below low passes; high passes with the response, or lies past the cap where there is none.
            let mut low: u32 = 1;
            let mut high = cap + 1;
            let mut passed: Option<u32> = None;
            let mut len: u32 = 1;
            'lengths: while low < high {
                let mut k: u32 = 1;
                let mut largest: u32 = 0;
                // The first job starts no sooner than after what the level asks for in its first tick, but for the
                // job's own final region.
                let mut s = first - len;
                let trial = 'jobs: loop {
                    let released = (k - 1) * own.t;
                    let due = released + own.d;
                    let base = sides::base_of(own, first, len, k - 1);
                    let start = loop {
                        // Each value is a lower bound of the start: where it is too late, the job misses.
                        if due < s + len {
                            break 'jobs None;
                        }
                        let next = sides::start_side(&level[..above], base, s);
                        if next == s {
                            break s;
                        }
                        s = next;
                    };
                    largest = largest.max(start + len - released);
                    // Jobs released in the active period count.
                    if period <= released + own.t {
                        break 'jobs Some(largest);
                    }
                    // The next job starts at least C later.
                    k += 1;
                    s = start + own.c;
                };
                if let Some(response) = trial {
                    high = len;
                    passed = Some(response);
                } else {
                    low = len + 1;
                }
                len = next_length(low, high, cap);
            }
            sides::put_back(&mut level, at, asks[i as usize]);
            if let Some(response) = passed {
                let longer = tables::longer(own, high);
                best = Some(Candidate {
                    row: i,
                    length: high,
                    longer,
                    response,
                });
                if longer == 1 {
                    break 'rows;
                }
            }
        }
        let Some(taken) = best else {
            return Err(rank);
        };
        let placed = taken.row as usize;
        let at = PLAN_WIDTH * placed;
        filled.plan[at] = rank;
        filled.plan[at + 1] = taken.length;
        filled.times[placed] = taken.response;
        runs -= asks[placed].run as u32;
        blocking = blocking.max(taken.longer - 1);
        unplaced = marks::less(unplaced, taken.row);
    }
    Ok(filled)
}
