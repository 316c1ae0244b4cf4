// The printed plan: how many bytes its text has, and the text into a lent buffer.
#![tactic(auto)]

ghost use Rattle.std.specs.Prelude.{◌≡◌, [], ◌≤◌, length};
ghost use Rattle.tables.specs.Answer.{result_of};
ghost use Rattle.decimal.specs.inside.Placed.{Put, Room, Writes};
ghost use Rattle.printing.specs.Printed.{plan_line, row_line, plan_text, refused_line};
ghost use Rattle.printing.specs.Answers.{FitAnswer, PrintAnswer, PrintFront};

mod table;

use decimal::Written;
use table::{Planned, PlannedRow};
use tables::{Answer, PLANNED_WIDTH, Refusal};

// How many bytes the line of a row has.
fn row_bytes(i: u32, row: PlannedRow) -> usize
    ensures { (result ≡ length (row_line i row.rank row.len row.response)) × (result ≤ 69) }
{
    decimal::width(i)
        + decimal::width(row.rank)
        + decimal::width(row.len)
        + decimal::width(row.response)
        + 29
}

// How many bytes the text of a planned table has.
fn plan_bytes(planned: &Planned) -> usize
    ensures { (result ≡ length (plan_text planned.now.numbers.now)) × (result ≤ 4096) }
{
    let mut bytes = decimal::width(planned.n as u32) + 6;
    for i in 0..planned.n {
        bytes += row_bytes(i as u32, planned.row(i));
    }
    bytes
}

pub fn fit(planned: &[u32], len: usize) -> Answer
    ensures { FitAnswer planned.now len (result_of result []) }
{
    let table = Planned::check(planned)?;
    let bytes = plan_bytes(&table);
    if len < bytes {
        return Err(Refusal::Room);
    }
    Ok(bytes as u32)
}

// The first line, that gives the number of rows.
fn put_head(text: &mut Written, n: u32)
    requires { Room text.old (plan_line n) }
    ensures { Writes text.old (plan_line n) text.new }
{
    text.field(b"plan ", n);
    text.word(b"\n");
}

// The line of a row.
fn put_row(text: &mut Written, i: u32, row: PlannedRow)
    requires { Room text.old (row_line i row.rank row.len row.response) }
    ensures { Writes text.old (row_line i row.rank row.len row.response) text.new }
{
    text.field(b"row ", i);
    text.field(b" rank ", row.rank);
    text.field(b" length ", row.len);
    text.field(b" response ", row.response);
    text.word(b"\n");
}

// The whole text of a planned table.
fn put_plan(text: &mut Written, planned: &Planned)
    requires { Room text.old (plan_text planned.now.numbers.now) }
    ensures { Writes text.old (plan_text planned.now.numbers.now) text.new }
{
    put_head(text, planned.n as u32);
    for i in 0..planned.n {
        put_row(text, i as u32, planned.row(i));
    }
}

// The text at the front of the buffer; this promise says what the whole buffer then holds.
pub fn print_into(planned: &[u32], buf: &mut [u8]) -> Answer
    ensures { PrintAnswer planned.now buf.old (result_of result buf.new) }
{
    let bytes = fit(planned, buf.len())?;
    let table = Planned {
        numbers: planned,
        n: planned.len() / PLANNED_WIDTH,
    };
    let mut text = Written::new(buf, 0);
    put_plan(&mut text, &table);
    Ok(bytes)
}

// The written front of the lent buffer itself, empty on a refusal.
pub fn print<'a>(planned: &[u32], buf: &'a mut [u8]) -> &'a mut [u8]
    ensures { PrintFront planned.now (length buf.old) result.now
        × (result.ref_ptr ≡ buf.entry.ref_ptr) }
{
    let end = print_into(planned, buf).unwrap_or(0) as usize;
    &mut buf[..end]
}

// The line of a refusal at the front of the buffer; the place behind it.
pub fn put_refused(buf: &mut [u8], number: u32, place: u32) -> usize
    requires { 30 ≤ length buf.old }
    ensures { Put buf.old 0 (refused_line number place) buf.new result }
{
    let mut line = Written::new(buf, 0);
    line.field(b"refused ", number);
    line.field(b" ", place);
    line.word(b"\n");
    line.at()
}
