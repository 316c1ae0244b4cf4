// The operation play: the kernel's rule, answered from decision to decision.
#![tactic(auto)]

ghost use Rattle.std.specs.Prelude.{◌≤◌, length};
ghost use Rattle.tables.specs.Plan.{plan_of};
ghost use Rattle.tables.specs.Jobs.{jobs_of, WellFormedJobs};
ghost use Rattle.tables.specs.Answer.{result_of};
ghost use Rattle.tables.specs.inside.Rows.{table_in};
ghost use Rattle.kernel.specs.Answers.{PlayGiven, PlayAnswer};

use decision::{Head, Ruled, Running};
use tables::{Answer, JOB_WIDTH, Refusal};

// The finish tick of each job, at its place of the output. Of each row its earliest unfinished job is kept; the jobs
// before job `next` are released at tick t. Each turn of the loop is one decision, or goes on to the next release. A
// decision leaves no unfinished job locked, so that the next one goes by rank alone.
fn finish_all(ruled: &Ruled, jobs: &[u32], out: &mut [u32])
    requires { WellFormedJobs (table_in ruled.now.tasks.now.rows ruled.now.tasks.now.n) (jobs_of jobs.now)
        × ((jobs_of jobs.now).N ≤ length out.old) }
    ensures { PlayGiven (table_in ruled.now.tasks.now.rows ruled.now.tasks.now.n) (plan_of ruled.now.plan.now)
        (jobs_of jobs.now) out.old (jobs_of jobs.now).N out.new }
{
    let n = ruled.tasks.n;
    let many = jobs.len() / JOB_WIDTH;
    let order = ruled.by_rank();
    let mut heads = decision::first_jobs(jobs, n);
    let mut t = 0;
    let mut next = decision::released(jobs, 0, 0);
    loop {
        match decision::foremost(&order[..n], &heads, next) {
            None => {
                if many <= next {
                    return;
                }
                t = jobs[JOB_WIDTH * next + 1];
            }
            Some(r) => {
                let i = order[r];
                let Head { job: k, done: e } = heads[i];
                let run = jobs[JOB_WIDTH * k + 2];
                let job = Running {
                    row: i,
                    run,
                    done: e,
                };
                let d = ruled.stretch(job, jobs, next, t);
                t += d;
                if e + d < run {
                    heads[i].done = e + d;
                } else {
                    out[k] = t;
                    heads[i] = Head {
                        job: decision::following(jobs, i as u32, k + 1),
                        done: 0,
                    };
                }
            }
        }
        next = decision::released(jobs, next, t);
    }
}

// The operation: the checks in their order, then one finish tick a job, at the job's place of the output.
pub fn play(table: &[u32], plan: &[u32], jobs: &[u32], out: &mut [u32]) -> Answer
    ensures { PlayAnswer table.now plan.now jobs.now out.old
        (result_of result out.new) }
{
    let tasks = tables::check_table(table)?;
    tables::check_plan(&tasks, plan)?;
    let many = joblist::check_jobs(&tasks.rows[..tasks.n], jobs)?;
    if out.len() < many as usize {
        return Err(Refusal::Room);
    }
    let ruled = Ruled {
        tasks: &tasks,
        plan,
    };
    finish_all(&ruled, jobs, out);
    Ok(many)
}
