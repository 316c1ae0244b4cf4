// Task tables, plans and job lists: their widths and limits, their checks, and the answers that the operations share.
#![tactic(auto)]

mod answer;
mod plan_check;
mod table_checks;
mod task;

pub use answer::{Answer, Refusal, Said};
pub use plan_check::check_plan;
pub use table_checks::{check_table, rows_of};
pub use task::{Row, Tasks, cap, longer};

// How many numbers a row of a task table has, a row of a plan, a row of a planned table, a row of an output of times,
// and a job of a job list.
pub const ROW_WIDTH: usize = 5;

pub const PLAN_WIDTH: usize = 2;

pub const PLANNED_WIDTH: usize = 3;

pub const TIMES_WIDTH: usize = 1;

pub const JOB_WIDTH: usize = 3;

// The most rows of a table, and the largest number that may stand in one; the most jobs of a list, and the last tick at
// which one may be released.
pub const MOST_ROWS: usize = 32;

pub const MOST: u32 = 1000000;

pub const MOST_JOBS: usize = 4096;

pub const LAST_RELEASE: u32 = 1000000;
