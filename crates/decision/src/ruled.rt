// What a table and its plan decide: the rows by rank, and how far one decision runs a job.

ghost use Rattle.std.specs.Prelude.{◌≡◌, ◌*◌, ◌≤◌, ◌<◌, length};
ghost use Rattle.tables.specs.Table.{most};
ghost use Rattle.tables.specs.Plan.{WellFormed, plan_of, plan_width};
ghost use Rattle.tables.specs.Jobs.{jobs_of};
ghost use Rattle.tables.specs.inside.Rows.{table_in};
ghost use Rattle.decision.specs.inside.Decision.{ByRank, HeldTo, Stretch};

use tables::{JOB_WIDTH, MOST_ROWS, PLAN_WIDTH, Tasks};

// A task table and a well-formed plan of it.
#[derive(Clone, Copy)]
pub struct Ruled<'a> {
    pub tasks: &'a Tasks,
    pub plan: &'a [u32],
    pub ghost whole: { length plan.now ≡ plan_width * tasks.now.n },
    pub ghost formed: { WellFormed (table_in tasks.now.rows tasks.now.n) (plan_of plan.now) },
}

// A job that is not finished: its row, its run, and how many ticks of it are executed.
#[derive(Clone, Copy)]
pub struct Running {
    pub row: usize,
    pub run: u32,
    pub done: u32,
    pub ghost small: { run ≤ most },
    pub ghost left: { done < run },
}

impl<'a> Ruled<'a> {
    // The rows by rank: the row of rank r at place r − 1, and 0 past the rows.
    pub fn by_rank(&self) -> [usize; MOST_ROWS]
        ensures { ByRank (table_in self.now.tasks.now.rows self.now.tasks.now.n) (plan_of self.now.plan.now) result }
    {
        let n = self.tasks.n;
        let mut order = [0; MOST_ROWS];
        for i in 0..n {
            let rank = self.plan[PLAN_WIDTH * i] as usize;
            order[rank - 1] = i;
        }
        order
    }

    // The ticks that a job has executed once it is not locked, or its whole run where it is locked to its end. Its
    // middle region ends inside the job, its final one with it.
    fn held_to(&self, job: Running) -> u32
        requires { job.row < self.now.tasks.now.n }
        ensures { HeldTo (table_in self.now.tasks.now.rows self.now.tasks.now.n) (plan_of self.now.plan.now)
            job.row job.done job.run result }
    {
        let row = self.tasks.rows[job.row];
        let done = job.done;
        let run = job.run;
        if row.c < done + self.plan[PLAN_WIDTH * job.row + 1] {
            return run;
        }
        let start = row.start;
        let end = start + row.region;
        if done <= start || end <= done {
            return done;
        }
        if run < end {
            return run;
        }
        end
    }

    // How far one decision runs a job that is not locked: to its end or to the next release, whichever comes first;
    // where it is locked at that release, on to the end of its region.
    pub fn stretch(&self, job: Running, jobs: &[u32], next: usize, t: u32) -> u32
        requires { (job.row < self.now.tasks.now.n)
            × (next < (jobs_of jobs.now).N → t < (jobs_of jobs.now).release next) }
        ensures { Stretch (table_in self.now.tasks.now.rows self.now.tasks.now.n) (plan_of self.now.plan.now)
            (jobs_of jobs.now) job.row job.done job.run next t result }
    {
        let left = job.run - job.done;
        if jobs.len() / JOB_WIDTH <= next {
            return left;
        }
        let until = jobs[JOB_WIDTH * next + 1] - t;
        if left <= until {
            return left;
        }
        let at_release = Running {
            row: job.row,
            run: job.run,
            done: job.done + until,
        };
        self.held_to(at_release) - job.done
    }
}
