// The writer of planned tables: each row's rank, length and response into its own part of the output.
#![tactic(auto)]

ghost use Rattle.std.specs.Prelude.{◌≡◌, ◌++◌, ◌*◌, ◌≤◌, length, drop};
ghost use Rattle.tables.specs.Table.{most_rows};
ghost use Rattle.tables.specs.Planned.{planned_width};
ghost use Rattle.planned.specs.inside.Planned.{row, planned};

use tables::{MOST_ROWS, PLAN_WIDTH, PLANNED_WIDTH};

// One planned row, into its own part.
fn put_row(out: &mut [u32], rank: u32, len: u32, response: u32)
    requires { length out.old ≡ planned_width }
    ensures { out.new ≡ row rank len response }
{
    out.copy_from_slice(&[rank, len, response]);
}

// The first n rows of a plan and its times in front, the remainder as it was.
pub fn write(plan: [u32; PLAN_WIDTH * MOST_ROWS], times: [u32; 32], n: usize, out: &mut [u32])
    requires { (n ≤ most_rows) × (planned_width * n ≤ length out.old) }
    ensures { out.new ≡ planned plan times n ++ drop (planned_width * n) out.old }
{
    for i in 0..n {
        put_row(
            &mut out[PLANNED_WIDTH * i..PLANNED_WIDTH * i + PLANNED_WIDTH],
            plan[PLAN_WIDTH * i],
            plan[PLAN_WIDTH * i + 1],
            times[i],
        );
    }
}
