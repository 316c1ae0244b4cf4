// The library for C: the seven operations of `templetbark` under the names that include/templetbark.h declares. A
// slice is passed as a pointer and its length, and the answer comes back as the struct. Each function calls the
// operation of its name and promises what that one promises.
#![tactic(auto)]

ghost use Rattle.std.specs.Prelude.{[]};
ghost use Rattle.test.specs.Answers.{TimesAnswer, VerdictAnswer};
ghost use Rattle.choice.specs.Answers.{PlanAnswer};
ghost use Rattle.kernel.specs.Answers.{PlayAnswer};
ghost use Rattle.sheet.specs.Answers.{SheetAnswer};
ghost use Rattle.printing.specs.Answers.{FitAnswer, PrintAnswer};
ghost use Rattle.templetbark.specs.Said.{said_of};

use tables::Said;

// plan: ranks, lengths of the final regions and responses for the tasks of a table.
#[unsafe(no_mangle)]
pub extern "C" fn tb_plan(table: &[u32], out: &mut [u32]) -> Said
    ensures { PlanAnswer table.now out.old (said_of result out.new) }
{
    templetbark::tb_plan(table, out)
}

// times: the response of each row of a table under a plan that is given.
#[unsafe(no_mangle)]
pub extern "C" fn tb_times(table: &[u32], plan: &[u32], out: &mut [u32]) -> Said
    ensures { TimesAnswer table.now plan.now out.old
        (said_of result out.new) }
{
    templetbark::tb_times(table, plan, out)
}

// verdict: 1 where no row's response passes its deadline under the plan that is given, and 0 where one does.
#[unsafe(no_mangle)]
pub extern "C" fn tb_verdict(table: &[u32], plan: &[u32]) -> Said
    ensures { VerdictAnswer table.now plan.now (said_of result []) }
{
    templetbark::tb_verdict(table, plan)
}

// play: when each job of a list finishes, under the kernel's dispatch rule and a plan that is given.
#[unsafe(no_mangle)]
pub extern "C" fn tb_play(table: &[u32], plan: &[u32], jobs: &[u32], out: &mut [u32]) -> Said
    ensures { PlayAnswer table.now plan.now jobs.now out.old
        (said_of result out.new) }
{
    templetbark::tb_play(table, plan, jobs, out)
}

// sheet: the task table in ticks that a sheet's text says.
#[unsafe(no_mangle)]
pub extern "C" fn tb_sheet(text: &[u8], out: &mut [u32]) -> Said
    ensures { SheetAnswer text.now out.old (said_of result out.new) }
{
    templetbark::tb_sheet(text, out)
}

// print: the text of a planned table, at the front of the lent buffer.
#[unsafe(no_mangle)]
pub extern "C" fn tb_print(planned: &[u32], buf: &mut [u8]) -> Said
    ensures { PrintAnswer planned.now buf.old (said_of result buf.new) }
{
    templetbark::tb_print(planned, buf)
}

// fit: what print answers for a buffer of this length, with nothing lent to write to.
#[unsafe(no_mangle)]
pub extern "C" fn tb_fit(planned: &[u32], len: usize) -> Said
    ensures { FitAnswer planned.now len (said_of result []) }
{
    templetbark::tb_fit(planned, len)
}
