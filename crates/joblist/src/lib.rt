// The check of a job list: document 01's refusals 7 and 8, in one walk along the list.
#![tactic(auto)]

ghost use Rattle.std.specs.Prelude.{◌≤◌, ◌<◌, length};
ghost use Rattle.tables.specs.Table.{most_rows};
ghost use Rattle.tables.specs.Jobs.{jobs_of};
ghost use Rattle.tables.specs.inside.Rows.{table_in};
ghost use Rattle.tables.specs.inside.Checked.{Says};
ghost use Rattle.joblist.specs.inside.Listed.{KeepsAlone, ListSaid};

use tables::{JOB_WIDTH, LAST_RELEASE, MOST_JOBS, MOST_ROWS, Refusal, Row};

// Whether job k keeps the rules that it can break by itself.
pub fn keeps_alone(rows: &[Row], jobs: &[u32], k: usize) -> bool
    requires { (length rows.now ≤ most_rows) × (k < (jobs_of jobs.now).N) }
    ensures { Says result (KeepsAlone (table_in rows.now (length rows.now)) (jobs_of jobs.now) k) }
{
    let at = JOB_WIDTH * k;
    let i = jobs[at] as usize;
    let release = jobs[at + 1];
    let run = jobs[at + 2];
    i < rows.len() && release <= LAST_RELEASE && 1 <= run && run <= rows[i].c
}

// The number of jobs of a well-formed list. The walk keeps the last release, and for each row the earliest release that
// its next job may have.
pub fn check_jobs(rows: &[Row], jobs: &[u32]) -> Result<u32, Refusal>
    requires { length rows.now ≤ most_rows }
    ensures { ListSaid (table_in rows.now (length rows.now)) jobs.now result }
{
    let many = jobs.len() / JOB_WIDTH;
    if jobs.len() % JOB_WIDTH != 0 || MOST_JOBS < many {
        return Err(Refusal::JobsShape);
    }
    let mut last: u64 = 0;
    let mut earliest = [0u64; MOST_ROWS];
    for k in 0..many {
        let at = JOB_WIDTH * k;
        let i = jobs[at] as usize;
        let release = jobs[at + 1] as u64;
        let alone = keeps_alone(rows, jobs, k);
        if !alone || release < last || release < earliest[i] {
            return Err(Refusal::Job(k as u32));
        }
        earliest[i] = release + rows[i].t as u64;
        last = release;
    }
    Ok(many as u32)
}
