// The operation sheet: one pass over the text, then the limits of the table in ticks, then the room for it.
#![tactic(auto)]

ghost use Rattle.std.specs.Prelude.{◌≡◌, [], ◌≤◌, ◌*◌, length};
ghost use Rattle.tables.specs.Table.{row_width, most_rows};
ghost use Rattle.tables.specs.Checks.{Rows};
ghost use Rattle.tables.specs.Answer.{result_of};
ghost use Rattle.reading.specs.Begins.{Between};
ghost use Rattle.sheet.specs.Sheet.{longest_tick, RegionWithin, TaskWithin, start_ticks, length_ticks, row_of};
ghost use Rattle.sheet.specs.Answers.{TicksAnswer, SheetAnswer};
ghost use Rattle.sheet.specs.inside.Read.{region_of, task_of, ReadsTick, ReadsRegion, ReadsTimes, ReadsTask};
ghost use Rattle.sheet.specs.inside.Read.{Front, ReadsTasks, ReadsSheet};

use reading::Cursor;
use tables::{Answer, MOST_ROWS, ROW_WIDTH, Refusal};

// Start and length of a region, in microseconds.
#[derive(Clone, Copy)]
pub struct RegionTimes {
    pub start: u64,
    pub length: u64,
}

// What a line `task C D T` says, in microseconds, and its region where it has one.
#[derive(Clone, Copy)]
pub struct Times {
    pub c: u64,
    pub d: u64,
    pub t: u64,
    pub region: Option<RegionTimes>,
}

// Start and length of a region in ticks.
#[derive(Clone, Copy)]
pub struct RegionTicks {
    pub start: u32,
    pub length: u32,
}

const TICK: u64 = 1000;

const TIME: u64 = 1000000000;

// The first line, `tick N`; or the place up to which one could stand there. So for each reader below.
fn read_tick(cursor: &mut Cursor) -> Result<u64, usize>
    ensures { ReadsTick cursor.old cursor.new result }
{
    cursor.word(b"tick ")?;
    let tick = cursor.number(1, TICK, b"\n")?;
    Ok(tick.value)
}

// Start and length of a region, behind the other times of its task.
fn read_region(cursor: &mut Cursor) -> Result<RegionTimes, usize>
    ensures { ReadsRegion cursor.old cursor.new result }
{
    let start = cursor.number(0, TIME, b" ")?;
    let length = cursor.number(1, TIME, b"\n")?;
    Ok(RegionTimes {
        start: start.value,
        length: length.value,
    })
}

// The numbers of a task line: behind a space a region follows the spacing.
fn read_times(cursor: &mut Cursor) -> Result<Times, usize>
    ensures { ReadsTimes cursor.old cursor.new result }
{
    let run = cursor.number(1, TIME, b" ")?;
    let deadline = cursor.number(1, TIME, b" ")?;
    let spacing = cursor.number(1, TIME, b" \n")?;
    let region = if spacing.end == b' ' {
        Some(read_region(cursor)?)
    } else {
        None
    };
    Ok(Times {
        c: run.value,
        d: deadline.value,
        t: spacing.value,
        region,
    })
}

// One line, `task C D T` or `task C D T start length`.
fn read_task(cursor: &mut Cursor) -> Result<Times, usize>
    ensures { ReadsTask cursor.old cursor.new result }
{
    cursor.word(b"task ")?;
    read_times(cursor)
}

// A region in ticks, from its start rounded down to its end rounded up; 0 and 0 where there is none.
fn region_ticks(region: Option<RegionTimes>, tick: u64) -> RegionTicks
    requires { RegionWithin (region_of region) × Between 1 longest_tick tick }
    ensures { (result.start ≡ start_ticks tick (region_of region))
        × (result.length ≡ length_ticks tick (region_of region)) }
{
    let Some(RegionTimes { start, length }) = region else {
        return RegionTicks {
            start: 0,
            length: 0,
        };
    };
    let before = start / tick;
    let end = counting::round_up(start + length, tick);
    RegionTicks {
        start: before as u32,
        length: (end - before) as u32,
    }
}

// The row of a task in ticks, into its own part of the table: a run may not shrink, nor a deadline or a spacing grow.
fn put_ticks(row: &mut [u32], times: Times, tick: u64)
    requires { (length row.old ≡ row_width) × TaskWithin (task_of times) × Between 1 longest_tick tick }
    ensures { row.new ≡ row_of tick (task_of times) }
{
    let region = region_ticks(times.region, tick);
    row[0] = counting::round_up(times.c, tick) as u32;
    row[1] = (times.d / tick) as u32;
    row[2] = (times.t / tick) as u32;
    row[3] = region.start;
    row[4] = region.length;
}

// The task lines behind the first line, their rows into the table; how many they are.
fn read_tasks(cursor: &mut Cursor, tick: u64, table: &mut [u32]) -> Result<usize, usize>
    requires { Front cursor.old.text.now tick [] cursor.old.at × (length table.old ≡ row_width * most_rows) }
    ensures { ReadsTasks cursor.old.text.now tick table.old table.new result }
{
    for n in 0..MOST_ROWS {
        let times = read_task(cursor)?;
        put_ticks(
            &mut table[ROW_WIDTH * n..ROW_WIDTH * n + ROW_WIDTH],
            times,
            tick,
        );
        if cursor.at == cursor.text.len() {
            return Ok(n + 1);
        }
    }
    Err(cursor.at)
}

// The whole text, the rows of its tasks into the table; how many they are, or the place of refusal 9.
fn read_sheet(text: &[u8], table: &mut [u32]) -> Result<usize, usize>
    requires { length table.old ≡ row_width * most_rows }
    ensures { ReadsSheet text.now table.old table.new result }
{
    let mut cursor = Cursor { text, at: 0 };
    let tick = read_tick(&mut cursor)?;
    read_tasks(&mut cursor, tick, table)
}

// The limits of the task table, and the room for it: its numbers to the front of the output.
fn give(ticks: &[u32], out: &mut [u32]) -> Answer
    requires { Rows row_width ticks.now }
    ensures { TicksAnswer ticks.now out.old (result_of result out.new) }
{
    let len = ticks.len();
    // Never refused by its shape: the tasks of a sheet are 1 to 32 rows.
    tables::check_table(ticks)?;
    if out.len() < len {
        return Err(Refusal::Room);
    }
    out[..len].copy_from_slice(ticks);
    Ok(len as u32)
}

pub fn sheet(text: &[u8], out: &mut [u32]) -> Answer
    ensures { SheetAnswer text.now out.old (result_of result out.new) }
{
    let mut table = [0u32; ROW_WIDTH * MOST_ROWS];
    match read_sheet(text, &mut table) {
        Ok(n) => give(&table[..ROW_WIDTH * n], out),
        Err(place) => Err(Refusal::Sheet(place as u32)),
    }
}
