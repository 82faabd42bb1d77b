// The five functions that the desktop editor calls, on numbers and byte slices. An answer is one number: refused is
// question * 2^32 + place; otherwise the upper half is 0 and the lower half is what the call answers. `packing` has
// that definition, and that a caller reads the same answer off it again. All bytes, all lengths and all numbers get
// an answer.

#![tactic(auto)]

ghost use Rattle.std.specs.Prelude.{◌≡◌, ℕ, ◌≤◌, ◌<◌, length};
ghost use Rattle.calculus.specs.Types.{Ty};
ghost use Rattle.rules.specs.Limits.{work_length, answer_length};
ghost use Rattle.rules.specs.Answer.{accepted};
ghost use Rattle.rules.specs.Calls.{check_call, run_call, sheet_call, sheet_records, sheet_after};
ghost use Rattle.rules.specs.Reach.{Accepted};
ghost use Rattle.rules.specs.Preview.{preview_call, move_call};
ghost use Rattle.typing.specs.Judged.{Judged};
ghost use Rattle.reduction.specs.Previews.{said_preview, said_move, said_steps};
ghost use Rattle.evaluation.specs.Runs.{said_run};
ghost use Rattle.packing.specs.Packed.{half, packed_number, unpacked_answer, step_lower, run_lower, preview_lower, steps_left};
ghost use Rattle.packing.specs.Packed.{StepCounted, RunCounted, PreviewCounted};
ghost use Rattle.packing.specs.Tells.{TellsCheck};
ghost use Rattle.wigneld.specs.Exported.{steps_told, TellsRun, PromisedRun, read_off, handed_back, TellsMove, Followed};

use answer::Refusal;
use evaluation::Halt;
use reduction::{Moved, Previewed};

/// Checks a script: has it a type? `groups`, `types` and `script` are bytes, read as rows and records of 4, 6 and 8.
/// The answer is the number of records of the type.
///
/// Refuses, in this order and with the place in what is asked: a `work` or an `answer` that is too short (question
/// 1); a groups table, types table or script that isn't well made (2 to 19 and 36); a script without a type (20 to 24
/// and 31).
///
/// The type fills the front of `answer`, whose later bytes are kept; a refusal keeps all of it. `work` is left all
/// zeros once typing has begun, whether it accepts or refuses, and is kept before.
///
/// `promise` is of the answer that a caller reads off the number: in buffers that are long enough, it accepts exactly
/// the scripts to which the typing rules give a type, and reports the lowest.
#[unsafe(no_mangle)]
pub extern "C" fn wigneld_check(
    groups: &[u8],
    types: &[u8],
    script: &[u8],
    work: &mut [u8],
    answer: &mut [u8],
) -> u64
    ensures outcome { TellsCheck (check_call (length work.old) (length answer.old) groups.now types.now script.now)
        work.old answer.old result work.new answer.new }
    ensures promise { work_length ≤ length work.old → answer_length ≤ length answer.old
        → Judged groups.now types.now script.now answer.old (unpacked_answer result) answer.new }
{
    packing::answer(typing::checking(groups, types, script, work, answer))
}

// A run's end and record count, with its steps written apart, or the refusal, with nothing written.
fn run_number(run: Result<Halt, Refusal>, steps: &mut [u8]) -> u64
    requires { RunCounted (said_run run) }
    ensures answer { result ≡ packed_number (run_lower (said_run run)) }
    ensures steps { steps.new ≡ steps_told (said_run run) steps.old }
{
    if let Ok(halt) = run {
        packing::put_steps(halt.steps, steps);
    }
    packing::answer(run.map(|halt| {
        packing::end_and_count(reduction::end_number(halt.stop), halt.records)
    }))
}

/// Runs a script for at most `budget` steps. The answer is the end times 65,536 plus the number of records of the
/// last term. The end is 0 at a value, 1 where the budget is spent, 2 where the reader may not, 3 at the wrong kind,
/// 4 at a term that is too big for the shorter of `first` and `scratch`.
///
/// Refuses, in this order and with the place in what is asked: a groups table, types table or script that isn't well
/// made, and a `first` or `scratch` that is shorter than the script (questions 2 to 19 and 36). It keeps all that is
/// lent then.
///
/// Otherwise `first` holds the last term and then zeros, `scratch` is all zeros, and `steps` takes the number of
/// steps in 8 bytes, lowest byte first, as many of them as it has.
///
/// `promise` is of a script that checking accepts, in buffers that hold it: its run isn't refused, doesn't end with 2
/// or 3, reaches only terms of a type at or below the reported one, and is step for step that of the script without
/// access marks.
#[unsafe(no_mangle)]
pub extern "C" fn wigneld_run(
    groups: &[u8],
    types: &[u8],
    script: &[u8],
    budget: u64,
    first: &mut [u8],
    scratch: &mut [u8],
    steps: &mut [u8],
) -> u64
    ensures outcome { TellsRun (run_call groups.now types.now script.now budget (length first.old) (length scratch.old))
        first.old scratch.old steps.old result first.new scratch.new steps.new }
    ensures promise { (type : Ty) → Accepted groups.now types.now script.now type
        → length script.now ≤ length first.old → length script.now ≤ length scratch.old
        → PromisedRun groups.now types.now script.now type budget
        first.old scratch.old steps.old result first.new scratch.new steps.new }
{
    run_number(
        evaluation::run(groups, types, script, budget, first, scratch),
        steps,
    )
}

/// Writes the sheet of the value in `value` for the reader group `group` to the front of `sheet`, in records of 6
/// bytes. Bytes past them are kept. The answer is the number of these records.
///
/// Refuses, in this order: a groups table, types table or value that isn't well made (questions 2 to 19 and 36, with
/// the place in what is asked); and at place 0 a group that isn't in the groups table (25), a script that is no value
/// (26), and a `sheet` that is too short (27). A refusal writes nothing.
#[tactic(auto, using(packing::proofs::Bounds::place_small, packing::proofs::Bounds::page_bounded, packing::proofs::Exported::sheet_bounded))]
#[unsafe(no_mangle)]
pub extern "C" fn wigneld_sheet(
    groups: &[u8],
    types: &[u8],
    value: &[u8],
    group: u64,
    sheet: &mut [u8],
) -> u64
    ensures answer { result
        ≡ packed_number (sheet_records (sheet_call groups.now types.now value.now group (length sheet.old))) }
    ensures sheet { sheet.new
        ≡ sheet_after (sheet_call groups.now types.now value.now group (length sheet.old)) sheet.old }
{
    packing::answer(sheet::page(groups, types, value, group, sheet))
}

// A preview's end and record count, or its refusal.
fn preview_number(preview: Result<Previewed, Refusal>) -> u64
    requires { PreviewCounted (said_preview preview) }
    ensures { result ≡ packed_number (preview_lower (said_preview preview)) }
{
    match preview {
        Ok(preview) => packing::answer(Ok(packing::end_and_count(
            preview.end as u8,
            preview.records as usize,
        ))),
        Err(refusal) => packing::answer(Err(refusal)),
    }
}

/// Shows the next step of a script into a written buffer of `written_length` bytes, and writes nothing. The answer is
/// the end that the step has times 65,536 plus the record count after it. The end is 0 at a value, 1 where the term
/// moves, 2 where the reader may not, 3 at the wrong kind, 4 where the new term is too big.
///
/// Refuses a groups table, types table or script that isn't well made (questions 2 to 19 and 36, in this order, with
/// the place in what is asked).
///
/// The number of steps so far stays with the caller, and the answer is the same for each. What a caller reads off it
/// is, with that number, the preview that a move takes back.
#[unsafe(no_mangle)]
pub extern "C" fn wigneld_preview(
    groups: &[u8],
    types: &[u8],
    script: &[u8],
    written_length: u64,
) -> u64
    ensures answer { (steps : ℕ)
        → result ≡ packed_number (preview_lower (preview_call groups.now types.now script.now written_length steps)) }
    ensures read_off { (steps : ℕ) → result < half
        → preview_call groups.now types.now script.now written_length steps ≡ accepted (read_off result steps) }
{
    preview_number(reduction::preview(groups, types, script, written_length as usize, 0))
}

// A move's end and record count, with the number of steps after it written apart, or the refusal, with nothing written.
fn move_number(move_on: Result<Moved, Refusal>, steps: &mut [u8]) -> u64
    requires { StepCounted (said_move move_on) }
    ensures answer { result ≡ packed_number (step_lower (said_move move_on)) }
    ensures steps { steps.new ≡ steps_left (said_steps move_on) steps.old }
{
    if let Ok(made) = move_on {
        packing::put_steps(made.steps, steps);
    }
    packing::answer(move_on.map(|made| {
        packing::end_and_count(reduction::end_number(made.report.stop), made.report.records)
    }))
}

/// Makes the step that a preview showed. `end` and `records` are what was read off the preview's answer, and `steps`
/// holds the caller's number of steps so far in 8 bytes, lowest byte first; bytes that it hasn't are 0. The answer is
/// that of the step: its end times 65,536 plus its record count.
///
/// Refuses, in this order: a groups table, types table or script that isn't well made (questions 2 to 19 and 36, with
/// the place in what is asked); and at place 0 an `end` or `records` that isn't that of this script's next step into
/// this buffer (35).
///
/// Where the term moves, which is end 1, the new term fills the front of `written`, whose later bytes are kept, and
/// `steps` takes the number of steps with this one, as many of its bytes as it has; the largest number stays.
/// Otherwise nothing is written.
///
/// `promise`: with what the preview of this script and this buffer gave, it answers, writes and counts what the
/// single step does; and unless it is given end 1 it writes nothing.
#[unsafe(no_mangle)]
pub extern "C" fn wigneld_move(
    groups: &[u8],
    types: &[u8],
    script: &[u8],
    end: u64,
    records: u64,
    written: &mut [u8],
    steps: &mut [u8],
) -> u64
    ensures outcome { let preview = handed_back end records steps.old in
        TellsMove script.now preview (move_call groups.now types.now script.now (length written.old) preview)
        written.old steps.old result written.new steps.new }
    ensures promise { Followed groups.now types.now script.now end records written.old steps.old
        result written.new steps.new }
{
    let preview = Previewed {
        end,
        records,
        steps: packing::steps_of(steps),
    };
    move_number(
        reduction::move_on(groups, types, script, preview, written),
        steps,
    )
}
