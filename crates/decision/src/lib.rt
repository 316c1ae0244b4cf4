// What play decides with: which job of a row is next, which release is next, which row's job runs, and how long.
#![tactic(auto)]

mod ruled;

ghost use Rattle.std.specs.Prelude.{ℕ, ◌≤◌, ◌<◌, get_or, length};
ghost use Rattle.tables.specs.Table.{most_rows};
ghost use Rattle.tables.specs.Jobs.{jobs_of};
ghost use Rattle.decision.specs.inside.Decision.{Following, Heads, Released, Foremost};

pub use ruled::{Ruled, Running};
use tables::{JOB_WIDTH, MOST_ROWS};

// A row's earliest unfinished job, the number of jobs where there is none, and the ticks that it has executed.
#[derive(Clone, Copy)]
pub struct Head {
    pub job: usize,
    pub done: u32,
}

// The first job of row i from job `from` on, or the number of jobs.
pub fn following(jobs: &[u32], i: u32, from: usize) -> usize
    requires { from ≤ (jobs_of jobs.now).N }
    ensures { Following (jobs_of jobs.now) i from result }
{
    let many = jobs.len() / JOB_WIDTH;
    (from..many)
        .find(|&k| jobs[JOB_WIDTH * k] == i)
        .unwrap_or(many)
}

// Each row's first job, of which no tick is executed, and 0 past the rows.
pub fn first_jobs(jobs: &[u32], n: usize) -> [Head; MOST_ROWS]
    requires { n ≤ most_rows }
    ensures { Heads (jobs_of jobs.now) n result }
{
    let mut heads = [Head { job: 0, done: 0 }; MOST_ROWS];
    for i in 0..n {
        heads[i].job = following(jobs, i as u32, 0);
    }
    heads
}

// The first job from job `from` on that is released after tick t, or the number of jobs.
pub fn released(jobs: &[u32], from: usize, t: u32) -> usize
    requires { from ≤ (jobs_of jobs.now).N }
    ensures { Released (jobs_of jobs.now) from t result }
{
    let many = jobs.len() / JOB_WIDTH;
    (from..many)
        .find(|&k| t < jobs[JOB_WIDTH * k + 1])
        .unwrap_or(many)
}

// The first place of the order whose row's earliest unfinished job is released, if there is one.
pub fn foremost(order: &[usize], heads: &[Head; MOST_ROWS], next: usize) -> Option<usize>
    requires { (r : ℕ) → r < length order.now → get_or order.now r 0 < most_rows }
    ensures { Foremost order.now heads.now next result }
{
    (0..order.len()).find(|&r| heads[order[r]].job < next)
}
