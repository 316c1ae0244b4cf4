// The public library: the seven operations as licensees call them. A promise here is the operation's own, with
// number, place and value as C has them. The crate `templetbark_c` exports them for C.
#![tactic(auto)]

ghost use Rattle.std.specs.Prelude.{[], ◌≡◌, length, take, IfOk, IfErr};
ghost use Rattle.test.specs.Answers.{TimesAnswer, VerdictAnswer};
ghost use Rattle.choice.specs.Answers.{PlanAnswer};
ghost use Rattle.kernel.specs.Answers.{PlayAnswer};
ghost use Rattle.sheet.specs.Answers.{SheetAnswer};
ghost use Rattle.printing.specs.Answers.{FitAnswer, PrintAnswer, PrintFront};
ghost use Rattle.templetbark.specs.Said.{said_of};

use tables::Said;

// plan: ranks, lengths of the final regions and responses for the tasks of a table.
pub fn tb_plan(table: &[u32], out: &mut [u32]) -> Said
    ensures { PlanAnswer table.now out.old (said_of result out.new) }
{
    plan::plan(table, out).into()
}

// times: the response of each row of a table under a plan that is given.
pub fn tb_times(table: &[u32], plan: &[u32], out: &mut [u32]) -> Said
    ensures { TimesAnswer table.now plan.now out.old
        (said_of result out.new) }
{
    times::times(table, plan, out).into()
}

// verdict: 1 where no row's response passes its deadline under the plan that is given, and 0 where one does.
pub fn tb_verdict(table: &[u32], plan: &[u32]) -> Said
    ensures { VerdictAnswer table.now plan.now (said_of result []) }
{
    times::verdict(table, plan).into()
}

// play: when each job of a list finishes, under the kernel's dispatch rule and a plan that is given.
pub fn tb_play(table: &[u32], plan: &[u32], jobs: &[u32], out: &mut [u32]) -> Said
    ensures { PlayAnswer table.now plan.now jobs.now out.old
        (said_of result out.new) }
{
    play::play(table, plan, jobs, out).into()
}

// sheet: the task table in ticks that a sheet's text says.
pub fn tb_sheet(text: &[u8], out: &mut [u32]) -> Said
    ensures { SheetAnswer text.now out.old (said_of result out.new) }
{
    sheet::sheet(text, out).into()
}

// print: the text of a planned table, at the front of the lent buffer.
pub fn tb_print(planned: &[u32], buf: &mut [u8]) -> Said
    ensures { PrintAnswer planned.now buf.old (said_of result buf.new) }
{
    printing::print_into(planned, buf).into()
}

// fit: what print answers for a buffer of this length, with nothing lent to write to.
pub fn tb_fit(planned: &[u32], len: usize) -> Said
    ensures { FitAnswer planned.now len (said_of result []) }
{
    printing::fit(planned, len).into()
}

// print, for callers in Rattle: hands back that front of the lent buffer, empty on a refusal.
pub fn print<'a>(planned: &[u32], buf: &'a mut [u8]) -> &'a mut [u8]
    ensures { PrintFront planned.now (length buf.old) result.now
        × (result.ref_ptr ≡ buf.entry.ref_ptr) }
{
    printing::print(planned, buf)
}

// For callers in Rattle: the front of a lent output that an answer counts, or the answer itself where it is a refusal.
pub fn front(said: Said, out: &[u32]) -> Result<&[u32], Said>
    ensures given { IfOk result (λ given. (said.number ≡ 0) × (given.now ≡ take said.value out.now)) }
    ensures refused { IfErr result (λ refusal. (refusal ≡ said) × (said.number ≡ 0 → ⊥)) }
{
    if said.number != 0 {
        return Err(said);
    }
    let end = out.len().min(said.value as usize);
    Ok(&out[..end])
}
