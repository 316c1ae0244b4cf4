// The check 6, of a slice that is to be a plan of a task table.

ghost use Rattle.std.specs.Prelude.{◌≡◌, ◌⊎◌, ◌+◌, ◌*◌, ◌<◌, ◌≤◌, length};
ghost use Rattle.tables.specs.Table.{most_rows};
ghost use Rattle.tables.specs.Plan.{plan_of, plan_width};
ghost use Rattle.tables.specs.Checks.{RankAtFault, RankTaken};
ghost use Rattle.tables.specs.inside.Rows.{table_in, EndsBeforeRun, LengthAtFaultIn};
ghost use Rattle.tables.specs.inside.Checked.{Says, PlanChecked};

use crate::{MOST_ROWS, PLAN_WIDTH, Refusal, Row, Tasks, cap};

// Whether an earlier row of the plan has the rank of row i.
fn rank_taken(plan: &[u32], i: usize) -> bool
    requires { plan_width * i + 1 < length plan.now }
    ensures { Says result (RankTaken (plan_of plan.now).rank i) }
{
    let rank = plan[PLAN_WIDTH * i];
    for j in 0..i {
        let earlier = PLAN_WIDTH * j;
        if plan[earlier] == rank {
            return true;
        }
    }
    false
}

// Whether row i of a plan of n rows is at fault by its rank.
fn rank_at_fault(plan: &[u32], n: usize, i: usize) -> bool
    requires { (i < n) × (n ≤ most_rows) × (length plan.now ≡ plan_width * n) }
    ensures { Says result (RankAtFault n (plan_of plan.now).rank i) }
{
    let rank = plan[PLAN_WIDTH * i] as usize;
    rank < 1 || n < rank || rank_taken(plan, i)
}

// Whether a row is at fault by its length.
fn length_at_fault(row: Row, len: u32) -> bool
    requires { EndsBeforeRun row }
    ensures { Says result (LengthAtFaultIn row len) }
{
    len < 1 || cap(row) < len
}

// Whether row i of a plan of n rows is at fault.
fn row_at_fault(row: Row, n: usize, plan: &[u32], i: usize) -> bool
    requires { EndsBeforeRun row × (i < n) × (n ≤ most_rows) × (length plan.now ≡ plan_width * n) }
    ensures { Says result (RankAtFault n (plan_of plan.now).rank i
        ⊎ LengthAtFaultIn row ((plan_of plan.now).len i)) }
{
    rank_at_fault(plan, n, i) || length_at_fault(row, plan[PLAN_WIDTH * i + 1])
}

// The check 6 of a plan: the place is the first row at fault, 32 where the slice is not two numbers a row.
pub fn check_plan(tasks: &Tasks, plan: &[u32]) -> Result<(), Refusal>
    ensures { PlanChecked (table_in tasks.now.rows tasks.now.n) plan.now result }
{
    let n = tasks.n;
    if plan.len() != PLAN_WIDTH * n {
        return Err(Refusal::Plan(MOST_ROWS as u32));
    }
    for i in 0..n {
        if row_at_fault(tasks.rows[i], n, plan, i) {
            return Err(Refusal::Plan(i as u32));
        }
    }
    Ok(())
}
