// The figures of document 01 and of the requests of document 02, run: each as it stands there, with the answer that the
// library gives. A row of document 01 has no middle region.
#![tactic(auto)]

mod text;

use std::io;
use tables::{JOB_WIDTH, MOST_ROWS, PLANNED_WIDTH, ROW_WIDTH, Said, TIMES_WIDTH};
use text::{Answer, Numbers, Refused, Rows};

// The tables that several figures are about: two rows, three, and two of which the first has a middle region, late, soon
// or short.
const TWO: [u32; 10] = [2, 5, 5, 0, 0, 4, 7, 7, 0, 0];

const THREE: [u32; 15] = [1, 4, 4, 0, 0, 1, 6, 6, 0, 0, 4, 12, 12, 0, 0];

const LATE: [u32; 10] = [5, 20, 20, 1, 3, 1, 9, 9, 0, 0];

const SOON: [u32; 10] = [5, 20, 20, 0, 3, 1, 9, 9, 0, 0];

const SHORT: [u32; 10] = [5, 20, 20, 1, 2, 1, 9, 9, 0, 0];

fn main(rt: HostRuntime) -> io::Result<()> {
    first(&rt)?;
    rounded(&rt)?;
    with_regions(&rt)?;
    played_regions(&rt)?;
    refused_regions(&rt)?;
    sheet_regions(&rt)
}

// The figures of document 01.
fn first(rt: &impl Print) -> io::Result<()> {
    let tables: [&[u32]; 5] = [
        &[1, 1, 1, 0, 0],
        &TWO,
        &[2, 5, 5, 0, 0, 4, 6, 7, 0, 0],
        &[2, 5, 5, 0, 0, 4, 5, 7, 0, 0],
        &THREE,
    ];
    for table in tables {
        planned(rt, table)?;
    }
    for plan in [[1, 1, 2, 1, 3, 3], [1, 1, 2, 1, 3, 4], [1, 1, 2, 1, 3, 1]] {
        timed(rt, &THREE, &plan)?;
    }
    planned(rt, &[2, 3, 3, 0, 0, 2, 3, 3, 0, 0])?;
    planned(rt, &[5, 4, 9, 0, 0])?;
    for jobs in [[1, 0, 4, 0, 3, 2], [1, 0, 4, 0, 2, 2], [1, 0, 3, 0, 3, 2]] {
        played(rt, &TWO, &[1, 1, 2, 2], &jobs)?;
    }
    let tables: [&[u32]; 4] = [
        &[
            500000, 1000000, 1000000, 0, 0, 500000, 1000000, 1000000, 0, 0,
        ],
        &[
            500000, 1000000, 1000000, 0, 0, 500001, 1000000, 1000000, 0, 0,
        ],
        &[0, 1, 1, 0, 0],
        &[1, 1000001, 1, 0, 0],
    ];
    for table in tables {
        planned(rt, table)?;
    }
    read(rt, "")?;
    read(rt, "tick 5\n")?;
    played(rt, &TWO, &[1, 1, 2, 2], &[])?;
    printed(rt, "tick 10\ntask 20 50 50\ntask 40 70 70\n")
}

// Times that lie between two ticks.
fn rounded(rt: &impl Print) -> io::Result<()> {
    for text in [
        "tick 7\ntask 7 20 20\n",
        "tick 7\ntask 8 20 27\n",
        "tick 7\ntask 20 20 20\n",
    ] {
        read(rt, text)?;
    }
    planned(rt, &[3, 2, 2, 0, 0])?;
    for text in ["tick 7\ntask 7 6 20\n", "tick 7\ntask 7 20 6\n"] {
        read(rt, text)?;
    }
    for text in [
        "tick 10\ntask 20 59 59\ntask 40 79 79\n",
        "tick 10\ntask 20 59 59\ntask 40 69 79\n",
        "tick 10\ntask 20 59 59\ntask 40 70 69\n",
    ] {
        printed(rt, text)?;
    }
    Ok(())
}

// Rows with a middle region, planned and timed.
fn with_regions(rt: &impl Print) -> io::Result<()> {
    for table in [
        [3, 4, 4, 0, 2, 1, 4, 4, 0, 0],
        [2, 5, 8, 0, 0, 3, 5, 4, 0, 2],
        [1, 2, 5, 0, 0, 4, 5, 5, 0, 2],
        [3, 4, 4, 0, 2, 1, 2, 4, 0, 0],
        [3, 4, 5, 0, 1, 1, 2, 3, 0, 0],
        [2, 3, 3, 0, 1, 1, 2, 3, 0, 0],
        [1, 2, 3, 0, 0, 3, 6, 5, 0, 2],
        [2, 5, 4, 0, 1, 3, 5, 6, 0, 0],
        [1, 1, 4, 0, 0, 3, 4, 4, 0, 2],
        [2, 5, 5, 0, 0, 4, 7, 7, 0, 2],
        [2, 5, 5, 0, 0, 4, 7, 7, 0, 3],
    ] {
        planned(rt, &table)?;
    }
    timed(rt, &LATE, &[2, 1, 1, 1])?;
    for plan in [[2, 1, 1, 1], [2, 2, 1, 1], [2, 3, 1, 1]] {
        timed(rt, &SHORT, &plan)?;
    }
    Ok(())
}

// Releases before, inside and at the end of a middle region.
fn played_regions(rt: &impl Print) -> io::Result<()> {
    for jobs in [
        [0, 0, 5, 1, 1, 1],
        [0, 0, 5, 1, 2, 1],
        [0, 0, 5, 1, 3, 1],
        [0, 0, 5, 1, 4, 1],
        [0, 0, 3, 1, 2, 1],
    ] {
        played(rt, &LATE, &[2, 1, 1, 1], &jobs)?;
    }
    for jobs in [[0, 0, 5, 1, 3, 1], [0, 0, 5, 1, 4, 1]] {
        played(rt, &SOON, &[2, 2, 1, 1], &jobs)?;
    }
    Ok(())
}

// Regions that a table may not have, beside one that it may.
fn refused_regions(rt: &impl Print) -> io::Result<()> {
    let tables: [&[u32]; 11] = [
        &[3, 9, 9, 0, 3],
        &[3, 9, 9, 1, 0],
        &[3, 9, 0, 1, 0],
        &[3, 9, 9, 0, 3, 0, 9, 9, 0, 0],
        &[3, 9, 9, 0, 2, 0, 9, 9, 0, 0],
        &[3, 9, 9, u32::MAX, u32::MAX],
        &[1, 9, 9, 0, 1],
        &[1000000, 1000000, 1000000, 999998, 1],
        &[1000000, 1000000, 1000000, 999999, 1],
        &[3, 9, 9, 0, 2, 3],
        &[2, 5, 5, 4, 7, 7, 1, 4, 4],
    ];
    for table in tables {
        planned(rt, table)?;
    }
    Ok(())
}

// Sheets with a middle region, and without its length.
fn sheet_regions(rt: &impl Print) -> io::Result<()> {
    for text in [
        "tick 10\ntask 60 200 200\n",
        "tick 10\ntask 60 200 200 5 12\n",
        "tick 10\ntask 60 200 200 19 2\n",
        "tick 10\ntask 60 200 200 9 2\n",
        "tick 10\ntask 60 200 200 10 10\n",
        "tick 10\ntask 60 200 200 30 20\n",
        "tick 10\ntask 60 200 200 30 21\n",
        "tick 10\ntask 60 200 200 0 1\n",
        "tick 10\ntask 50 200 200 30 20\n",
        "tick 10\ntask 60 200 200 0 0\n",
        "tick 10\ntask 60 200 200 00 1\n",
        "tick 10\ntask 60 200 200 0\n",
        "tick 10\ntask 60 200 200 \n",
        "tick 10\ntask 60 200 200 0 1 1\n",
        "tick 10\ntask 60 200 200 1000000001 1\n",
    ] {
        read(rt, text)?;
    }
    printed(rt, "tick 10\ntask 30 40 40 0 20\ntask 10 40 40\n")?;
    printed(rt, "tick 10\ntask 30 40 40\ntask 10 40 40\n")
}

// A task table to its planned table.
fn planned(rt: &impl Print, table: &[u32]) -> io::Result<()> {
    let mut out = [0; PLANNED_WIDTH * MOST_ROWS];
    let said = templetbark::tb_plan(table, &mut out);
    let planned = templetbark::front(said, &out).map(|planned| Rows::of(planned, PLANNED_WIDTH));
    println!(rt; "{}: {}", Rows::of(table, ROW_WIDTH), Answer(planned))
}

// A task table and a plan to its times.
fn timed(rt: &impl Print, table: &[u32], plan: &[u32]) -> io::Result<()> {
    let mut out = [0; TIMES_WIDTH * MOST_ROWS];
    let said = templetbark::tb_times(table, plan, &mut out);
    let times = templetbark::front(said, &out).map(Numbers);
    println!(rt;
        "{}, plan {}: times {}",
        Rows::of(table, ROW_WIDTH),
        Numbers(plan),
        Answer(times)
    )
}

// The finishes of a job list.
fn played(rt: &impl Print, table: &[u32], plan: &[u32], jobs: &[u32]) -> io::Result<()> {
    let mut out = [0; 8];
    let said = templetbark::tb_play(table, plan, jobs, &mut out);
    let finishes = templetbark::front(said, &out).map(Numbers);
    print!(rt; "{}, plan {}", Rows::of(table, ROW_WIDTH), Numbers(plan))?;
    println!(rt;
        ", jobs {}: finishes {}",
        Rows::of(jobs, JOB_WIDTH),
        Answer(finishes)
    )
}

// A sheet to its table.
fn read(rt: &impl Print, text: &str) -> io::Result<()> {
    let mut out = [0; ROW_WIDTH * MOST_ROWS];
    let said = templetbark::tb_sheet(text.as_bytes(), &mut out);
    let table = templetbark::front(said, &out).map(|table| Rows::of(table, ROW_WIDTH));
    println!(rt; "{text}sheet of {} bytes: {}", text.len(), Answer(table))
}

// A sheet to the printed plan.
fn printed(rt: &impl Print, text: &str) -> io::Result<()> {
    let mut out = [0; PLANNED_WIDTH * MOST_ROWS];
    print!(rt; "{text}")?;
    match plan_sheet(text, &mut out) {
        Ok(planned) => {
            let mut page = [0; 4096];
            rt.write_all(templetbark::print(planned, &mut page))
        }
        Err(refusal) => println!(rt; "{}", Refused(refusal)),
    }
}

fn plan_sheet<'a>(text: &str, out: &'a mut [u32]) -> Result<&'a [u32], Said> {
    let mut table = [0; ROW_WIDTH * MOST_ROWS];
    let read = templetbark::tb_sheet(text.as_bytes(), &mut table);
    let rows = templetbark::front(read, &table)?;
    let said = templetbark::tb_plan(rows, out);
    templetbark::front(said, out)
}
