// One step of a script's term, in two pieces: it is planned, and what was planned is written. A step takes both, a
// preview the first, and a move both, with a question between them.

#![tactic(auto)]

ghost use Rattle.std.specs.Prelude.{◌≡◌, ◌||◌, if◌then◌else◌, ◌+◌, ◌/◌, min, nat_eq, nat_lt, length};
ghost use Rattle.rules.specs.Answer.{Bytes};
ghost use Rattle.rules.specs.Limits.{script_width, script_limit, depth_limit};
ghost use Rattle.rules.specs.Groups.{properties_of};
ghost use Rattle.rules.specs.Types.{type_at};
ghost use Rattle.rules.specs.Script.{encode, term};
ghost use Rattle.rules.specs.Step.{step_in};
ghost use Rattle.rules.specs.Calls.{step_report, step_call, front_after, written_after};
ghost use Rattle.memory.specs.Splice.{splice};
ghost use Rattle.rules.specs.Preview.{preview_call, move_call, largest_steps};
ghost use Rattle.answer.specs.Said.{answer_of};
ghost use Rattle.reduction.specs.Steps.{reported_end, step_records, Startable, SomewhereSited, Sited, Placing, Foresees, next_step_records};
ghost use Rattle.reduction.specs.Steps.{report_of_step, said_step};
ghost use Rattle.reduction.specs.Previews.{preview_of, said_preview, same_as, AnswersMove, Promised};

use answer::{Checked, Question, Refusal};
use contraction::Plan;
use memory::Writer;
use records::SCRIPT_WIDTH;
use redex::Found;

/// Why no step moves a term.
#[derive(Clone, Copy, Debug, PartialEq, Eq)]
pub enum Stop {
    /// It is a value.
    Value,
    /// Its reader is not among the readers of the object that is to be read.
    MayNot,
    /// An operand is of the wrong kind for what is to be done with it.
    WrongKind,
    /// The new term has more records than a script or the lent buffer may have, or is too deep.
    TooBig,
}

/// What a step reports.
#[derive(Clone, Copy, Debug, PartialEq, Eq)]
pub struct StepReport {
    /// Why the term didn't move, or nothing where it did.
    pub stop: Option<Stop>,
    /// The records of the new term, or the script's own where the term didn't move.
    pub records: usize,
}

/// The number of the end of a step or of a run: 0 a value, 1 a term that still moves, 2 the reader may not, 3 the
/// wrong kind, 4 too big.
pub fn end_number(stop: Option<Stop>) -> u8
    ensures { result ≡ reported_end stop }
{
    match stop {
        Some(Stop::Value) => 0,
        None => 1,
        Some(Stop::MayNot) => 2,
        Some(Stop::WrongKind) => 3,
        Some(Stop::TooBig) => 4,
    }
}

// The step that moves a term, before anything is written: the redex's own record and the one after its last, how the
// contractum is made, and the records of the new term.
#[derive(Clone, Copy, Debug, PartialEq, Eq)]
struct NextStep {
    place: usize,
    end: usize,
    plan: Plan,
    records: usize,
}

/// Is a term of this many records and this depth too big for a buffer of `room` bytes? It is with more than 8,192
/// records, with more than an eighth of `room`, and with a depth over 256.
pub fn exceeds(room: usize, records: usize, depth: usize) -> bool
    ensures { result
        ≡ (nat_lt script_limit records || (nat_lt (room / script_width) records || nat_lt depth_limit depth)) }
{
    (script::SCRIPT_LIMIT < records)
        | ((room / SCRIPT_WIDTH < records) | (scope::DEPTH_LIMIT < depth))
}

// The contraction of the redex at record `place`, with `around` records around it. What stands beside the redex is
// within the limit of depth already, so the contractum's depth decides.
fn plan_at(script: &[u8], place: usize, around: usize, room: usize) -> Result<NextStep, Stop>
    requires { SomewhereSited script.now place around }
    ensures { (groups types : Bytes) → Sited groups types script.now place around
        → Foresees groups types script.now room result }
{
    let plan = contraction::plan_of(script, place);
    let size = contraction::measure(script, place, plan);
    let end = records::end_of(script, place);
    let total = place + size.records + (records::record_count(script) - end);
    if exceeds(room, total, around + size.depth) {
        return Err(Stop::TooBig);
    }
    Ok(NextStep {
        place,
        end,
        plan,
        records: total,
    })
}

// The next step of a term that stands alone in `script`, which passes the questions, into a buffer of `room` bytes;
// or why it doesn't move. The redex is searched for and its contractum measured here, and nowhere else.
fn plan_step(groups: &[u8], types: &[u8], script: &[u8], room: usize) -> Result<NextStep, Stop>
    requires { Startable groups.now types.now script.now }
    ensures { Foresees groups.now types.now script.now room result }
{
    match redex::find(groups, types, script, 0, 0) {
        Found::Value(_) => Err(Stop::Value),
        Found::Redex { place, around } => plan_at(script, place, around, room),
        Found::Denied => Err(Stop::MayNot),
        Found::Stuck => Err(Stop::WrongKind),
    }
}

// The new term, over the front of `written`: what stands before the redex, the contractum, what stands after the
// redex's end.
fn write_new(groups: &[u8], types: &[u8], script: &[u8], next: NextStep, written: &mut [u8])
    requires { Placing groups.now types.now script.now (length written.old) next }
    ensures { (q : Placing groups.now types.now script.now (length written.old) next)
        → written.new ≡ splice 0 (encode q.whole) written.old }
{
    let mut out = Writer::new(written);
    out.put(&script[..SCRIPT_WIDTH * next.place]);
    contraction::write_contractum(groups, types, script, next.place, next.plan, &mut out);
    out.put(&script[SCRIPT_WIDTH * next.end..]);
}

// What was planned: the new term, or nothing where the term doesn't move.
fn take_step(
    groups: &[u8],
    types: &[u8],
    script: &[u8],
    next: Result<NextStep, Stop>,
    written: &mut [u8],
)
    requires { Foresees groups.now types.now script.now (length written.old) next }
    ensures { written.new ≡ front_after
        (step_in (properties_of groups.now) (type_at types.now) (length written.old) (term script.now)) written.old }
{
    if let Ok(next) = next {
        write_new(groups, types, script, next, written);
    }
}

// The records of the new term, or why there is none.
fn counted(next: Result<NextStep, Stop>) -> Result<usize, Stop>
    ensures { result ≡ next_step_records next }
{
    match next {
        Ok(next) => Ok(next.records),
        Err(stop) => Err(stop),
    }
}

/// One step of a term that stands alone in `script`, which passes the questions; the new term to the front of
/// `written`. The answer is its record count, or why there is no next term; then nothing is written.
pub fn step_term(
    groups: &[u8],
    types: &[u8],
    script: &[u8],
    written: &mut [u8],
) -> Result<usize, Stop>
    requires { Startable groups.now types.now script.now }
    ensures answer { result ≡ step_records
        (step_in (properties_of groups.now) (type_at types.now) (length written.old) (term script.now)) }
    ensures written { written.new ≡ front_after
        (step_in (properties_of groups.now) (type_at types.now) (length written.old) (term script.now)) written.old }
{
    let next = plan_step(groups, types, script, written.len());
    take_step(groups, types, script, next, written);
    counted(next)
}

// What a step reports of a script with `own` records.
fn report(own: usize, step: Result<usize, Stop>) -> StepReport
    ensures { result ≡ report_of_step own step }
{
    match step {
        Ok(moved) => StepReport {
            stop: None,
            records: moved,
        },
        Err(stop) => StepReport {
            stop: Some(stop),
            records: own,
        },
    }
}

/// One step of a script's term. Refused where the groups table, the types table or the script doesn't pass (questions
/// 2 to 19 and 36, in order, with the place in what was asked); nothing is written then. A term that moves is written
/// to the front of `written`, and later bytes are kept; one that doesn't writes nothing. `written` may be shorter
/// than the script: a new term that it has no room for ends as too big.
pub fn step(
    groups: &[u8],
    types: &[u8],
    script: &[u8],
    written: &mut [u8],
) -> Result<StepReport, Refusal>
    ensures answer { said_step result
        ≡ step_report script.now (step_call groups.now types.now script.now (length written.old)) }
    ensures written { written.new
        ≡ written_after (step_call groups.now types.now script.now (length written.old)) written.old }
{
    syntax::script_check(groups, types, script, &[])?;
    let own = records::record_count(script);
    Ok(report(own, step_term(groups, types, script, written)))
}

/// What a preview gives and a move takes back. A caller may hand back any numbers.
#[derive(Clone, Copy, Debug, PartialEq, Eq)]
pub struct Previewed {
    /// The end of the next step, numbered as by `reported_end`.
    pub end: u64,
    /// The record count after it.
    pub records: u64,
    /// The number of steps so far, which is the caller's.
    pub steps: u64,
}

/// What a move gives.
#[derive(Clone, Copy, Debug, PartialEq, Eq)]
pub struct Moved {
    /// What its step reports.
    pub report: StepReport,
    /// The number of steps after it: one more where the term moved, up to the largest of 64 bits, which stays.
    pub steps: u64,
}

/// What the next step of a script's term into a buffer of `room` bytes would report, with the number of steps so far
/// as it came. Refused as the step is: questions 2 to 19 and 36. Nothing is written.
pub fn preview(
    groups: &[u8],
    types: &[u8],
    script: &[u8],
    room: usize,
    steps: u64,
) -> Result<Previewed, Refusal>
    ensures { said_preview result ≡ preview_call groups.now types.now script.now room steps }
{
    syntax::script_check(groups, types, script, &[])?;
    let next = plan_step(groups, types, script, room);
    let report = report(records::record_count(script), counted(next));
    Ok(Previewed {
        end: u64::from(end_number(report.stop)),
        records: report.records as u64,
        steps,
    })
}

// 35. Are the end and the record count handed back those of this step? They are compared as they come.
fn ask_preview(preview: Previewed, report: StepReport) -> Checked
    ensures { answer_of result ≡ same_as preview report }
{
    let end = preview.end == u64::from(end_number(report.stop));
    let records = preview.records == report.records as u64;
    answer::ask(Question::Preview, 0, end & records)
}

// The number of steps after a move that ends so: one more where it moved, and the largest stays.
fn raised(steps: u64, stop: Option<Stop>) -> u64
    ensures { result ≡ (if nat_eq (reported_end stop) 1 then min (steps + 1) largest_steps else steps) }
{
    match stop {
        None => steps.saturating_add(1),
        Some(_) => steps,
    }
}

/// The move that takes a preview back, and makes the step. Refused as the step is (questions 2 to 19 and 36), and
/// then where the end or the record count of `preview` isn't that of this step (35, place 0), with nothing written.
/// It leaves in `written` what the step leaves there: the step is planned anew, for this script and this buffer.
/// `promise` is what a preview of this script and this buffer promises its move.
pub fn move_on(
    groups: &[u8],
    types: &[u8],
    script: &[u8],
    preview: Previewed,
    written: &mut [u8],
) -> Result<Moved, Refusal>
    ensures outcome { AnswersMove script.now (preview_of preview)
        (move_call groups.now types.now script.now (length written.old) (preview_of preview))
        written.old result written.new }
    ensures promise { Promised groups.now types.now script.now written.old (preview_of preview) result written.new }
{
    let length = written.len();
    syntax::script_check(groups, types, script, &[])?;
    let next = plan_step(groups, types, script, length);
    let report = report(records::record_count(script), counted(next));
    ask_preview(preview, report)?;
    take_step(groups, types, script, next, written);
    Ok(Moved {
        report,
        steps: raised(preview.steps, report.stop),
    })
}
