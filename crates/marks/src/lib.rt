// A set of rows as one 32-bit number: row i is marked where binary digit i is 1.
#![tactic(auto)]

mod walk;

ghost use Rattle.std.specs.Prelude.{◌≡◌, true, false, ℕ, ◌≤◌, ◌<◌};
ghost use Rattle.counting.specs.Sum.{count};
ghost use Rattle.marks.specs.inside.Marks.{marked, Whole, Next, Both, Placed, Less, More};

pub use walk::{Walk, rows};

// All rows below n.
pub fn whole(n: u32) -> u32
    requires { (1 ≤ n) × (n ≤ 32) }
    ensures { Whole n result }
{
    0xffff_ffff >> (32 - n)
}

// How many rows are marked: the rank being filled, where the set is that of the unplaced rows.
pub fn size(set: u32) -> u32
    ensures { result ≡ count (marked set) 32 }
{
    u32::count_ones(set)
}

// The first marked row.
pub fn next(set: u32) -> u32
    requires { 0 < set }
    ensures { Next set result }
{
    u32::trailing_zeros(set)
}

// The set less its first marked row: the lowest digit that is 1, cleared with no look at where it stands.
pub fn others(set: u32) -> u32
    requires { 0 < set }
    ensures { (i : ℕ) → Next set i → Less set i result }
{
    set & (set - 1)
}

// Whether row i is marked.
pub fn has(set: u32, i: u32) -> bool
    requires { i < 32 }
    ensures { result ≡ marked set i }
{
    (set >> i) % 2 == 1
}

// The rows that are marked in two sets.
pub fn both(a: u32, b: u32) -> u32
    ensures { Both a b result }
{
    a & b
}

// How many marked rows stand before row i.
pub fn place(set: u32, i: u32) -> u32
    requires { i < 32 }
    ensures { result ≡ count (marked set) i }
{
    u32::count_ones(set & ((1 << i) - 1))
}

// The place of row i among the marked rows, where it is one of them.
pub fn place_of(set: u32, i: u32) -> Option<usize>
    requires { i < 32 }
    ensures { Placed set i result }
{
    if has(set, i) {
        Some(place(set, i) as usize)
    } else {
        None
    }
}

// The set less a row that is marked.
pub fn less(set: u32, i: u32) -> u32
    requires { (i < 32) × (marked set i ≡ true) }
    ensures { Less set i result }
{
    set - (1 << i)
}

// The set and a row that is not marked.
pub fn more(set: u32, i: u32) -> u32
    requires { (i < 32) × (marked set i ≡ false) }
    ensures { More set i result }
{
    set + (1 << i)
}
