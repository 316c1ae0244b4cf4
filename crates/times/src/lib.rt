// The operations times and verdict: the checks in their order, then the responses of the plan's rows.
#![tactic(auto)]

ghost use Rattle.std.specs.Prelude.{[], ◌*◌, ◌≤◌, length};
ghost use Rattle.tables.specs.Table.{most_rows};
ghost use Rattle.tables.specs.Refusal.{Clear};
ghost use Rattle.tables.specs.Checks.{plan_form};
ghost use Rattle.tables.specs.inside.Rows.{table_in};
ghost use Rattle.tables.specs.inside.Checked.{Says};
ghost use Rattle.tables.specs.Answer.{result_of};
ghost use Rattle.test.specs.Answers.{TimesAnswer, VerdictAnswer, times_width};
ghost use Rattle.times.specs.inside.Given.{Timed, Written, InTime};

mod busy_check;

pub use busy_check::check_busy;
use tables::{Answer, MOST_ROWS, Refusal, TIMES_WIDTH, Tasks};

// The check 4, and then the response of each row of a plan that is well formed. Inlined: the header names the stack of a
// call, and in a frame of its own it takes 500 bytes more.
#[inline(always)]
fn responses_of(tasks: &Tasks, plan: &[u32]) -> Result<[u32; MOST_ROWS], Refusal>
    requires { Clear (plan_form (table_in tasks.now.rows tasks.now.n) plan.now) }
    ensures { Timed (table_in tasks.now.rows tasks.now.n) plan.now result }
{
    let asks = sides::asks_of(tasks);
    check_busy(tasks, &asks)?;
    Ok(responses::responses(tasks, &asks[..tasks.n], plan))
}

// The first n of the times into the front of the output, row by row.
fn write(times: [u32; MOST_ROWS], n: usize, out: &mut [u32])
    requires { (n ≤ most_rows) × (times_width * n ≤ length out.old) }
    ensures { Written times n out.old out.new }
{
    out[..TIMES_WIDTH * n].copy_from_slice(&times[..n]);
}

// Whether each row's time is at most its deadline.
fn in_time(tasks: &Tasks, times: [u32; MOST_ROWS]) -> bool
    ensures { Says result (InTime (table_in tasks.now.rows tasks.now.n) times) }
{
    (0..tasks.n).all(|i| times[i] <= tasks.rows[i].d)
}

// The response of each row of the plan, one number a row. Nothing is written before all checks are made.
pub fn times(table: &[u32], plan: &[u32], out: &mut [u32]) -> Answer
    ensures { TimesAnswer table.now plan.now out.old (result_of result out.new) }
{
    let tasks = tables::check_table(table)?;
    let places = TIMES_WIDTH * tasks.n;
    tables::check_plan(&tasks, plan)?;
    if out.len() < places {
        return Err(Refusal::Room);
    }
    let times = responses_of(&tasks, plan)?;
    write(times, tasks.n, out);
    Ok(places as u32)
}

// 1 where every response is at most its deadline, and 0 where one is not.
pub fn verdict(table: &[u32], plan: &[u32]) -> Answer
    ensures { VerdictAnswer table.now plan.now (result_of result []) }
{
    let tasks = tables::check_table(table)?;
    tables::check_plan(&tasks, plan)?;
    let times = responses_of(&tasks, plan)?;
    Ok(u32::from(in_time(&tasks, times)))
}
