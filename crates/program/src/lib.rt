// The program over the library: a sheet from standard input, its plan or its refusal to standard output.
#![tactic(auto)]

ghost use Rattle.std.specs.Prelude.{◌≤◌, length, ◌≡◌, IfOk, IfErr};
ghost use Rattle.tables.specs.Checks.{Rows};
ghost use Rattle.tables.specs.Planned.{planned_width};
ghost use Rattle.printing.specs.Printed.{plan_text, refused_line};
ghost use Rattle.program.specs.Reply.{blank, Page, longest_page};
ghost use Rattle.program.specs.Run.{WritesPage};
ghost use Rattle.program.specs.inside.Input.{Within, ReadsFront};

use std::error::Error;
use std::fmt;
use std::io::{self, Read, Write};
use tables::{MOST_ROWS, PLANNED_WIDTH, ROW_WIDTH, Said};

// The line of a refusal.
fn refuse(page: &mut [u8], refusal: Said) -> &mut [u8]
    requires { longest_page ≤ length page.old }
    ensures { (result.now ≡ refused_line refusal.number refusal.place) × (result.ref_ptr ≡ page.entry.ref_ptr) }
{
    let end = printing::put_refused(page, refusal.number, refusal.place);
    &mut page[..end]
}

// The text of a planned table, for which there is room.
fn print_planned<'a>(planned: &[u32], page: &'a mut [u8]) -> &'a mut [u8]
    requires { Rows planned_width planned.now × (longest_page ≤ length page.old) }
    ensures { (result.now ≡ plan_text planned.now) × (result.ref_ptr ≡ page.entry.ref_ptr) }
{
    templetbark::print(planned, page)
}

// The planned table of a sheet's text, whose page is its text; or the refusal, whose page is its line.
fn plan_sheet<'a>(text: &[u8], planned: &'a mut [u32]) -> Result<&'a [u32], Said>
    requires { planned.old ≡ blank planned_width }
    ensures given { IfOk result (λ planned. Rows planned_width planned.now × Page text.now (plan_text planned.now)) }
    ensures refused { IfErr result (λ refusal. Page text.now (refused_line refusal.number refusal.place)) }
{
    let mut table = [0u32; ROW_WIDTH * MOST_ROWS];
    let read = templetbark::tb_sheet(text, &mut table);
    let rows = templetbark::front(read, &table)?;
    let said = templetbark::tb_plan(rows, planned);
    templetbark::front(said, planned)
}

// The page of a text.
pub fn reply<'a>(text: &[u8], page: &'a mut [u8]) -> &'a mut [u8]
    requires { longest_page ≤ length page.old }
    ensures { Page text.now result.now × (result.ref_ptr ≡ page.entry.ref_ptr) }
{
    let mut planned = [0u32; PLANNED_WIDTH * MOST_ROWS];
    match plan_sheet(text, &mut planned) {
        Ok(planned) => print_planned(planned, page),
        Err(refusal) => refuse(page, refusal),
    }
}

// How many bytes of the input were read: all up to its end or the buffer's.
fn read_input<R: Read>(input: &mut R, buf: &mut [u8]) -> io::Result<usize>
    ensures within { Within buf.new result }
    ensures front { ReadsFront (R.remaining input.old) (R.remaining input.new) buf.new result }
{
    let mut n: usize = 0;
    while n < buf.len() {
        let more = input.read(&mut buf[n..])?;
        if more == 0 {
            return Ok(n);
        }
        n += more;
    }
    Ok(n)
}

// Why a run wrote no page, or not the whole of it.
#[derive(Clone, Copy, Debug, PartialEq, Eq)]
pub enum Fault {
    Unread,
    Unwritten,
}

impl fmt::Display for Fault {
    fn fmt<W: fmt::Write>(&self, f: &mut fmt::Formatter<W>) -> fmt::Result {
        f.write_str(match self {
            Fault::Unread => "standard input cannot be read",
            Fault::Unwritten => "standard output cannot be written",
        })
    }
}

impl Error for Fault {}

// The page of the input, to the output. The buffer of 4,096 bytes holds every well-formed sheet, and a longer text has
// the page of its first 4,096 bytes (`page_cut`).
pub fn answer<R: Read, W: Write>(input: &mut R, output: &mut W) -> Result<(), Fault>
    ensures { WritesPage (R.remaining input.old) (W.contents output.old) (W.contents output.new) result }
{
    let mut text = [0u8; 4096];
    let Ok(n) = read_input(input, &mut text) else {
        return Err(Fault::Unread);
    };
    let mut page = [0u8; 4096];
    output
        .write_all(reply(&text[..n], &mut page))
        .map_err(|_| Fault::Unwritten)
}

// Answers standard input on standard output; what went wrong is said on standard error, if it can be.
pub fn run(rt: &(impl io::Input + Print + Eprint)) {
    if let Err(fault) = answer(&mut rt.reader(), &mut io::writer(rt)) {
        let _ = eprintln!(rt; "planner: {fault}");
    }
}
