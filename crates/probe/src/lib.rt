// The inner calls, exported for the tests only. Answers are packed as the library's own are.

#![tactic(auto)]

ghost use Rattle.std.specs.Prelude.{◌≡◌, if◌then◌else◌, length, take};
ghost use Rattle.rules.specs.Groups.{bit};
ghost use Rattle.rules.specs.Script.{subterm};
ghost use Rattle.rules.specs.Words.{words_check};
ghost use Rattle.rules.specs.Strip.{strip_script, strip_types};
ghost use Rattle.rules.specs.Calls.{fill_front, groups_check, types_check, step_call, step_report, written_after};
ghost use Rattle.answer.specs.Said.{answer_of};
ghost use Rattle.reduction.specs.Steps.{said_step};
ghost use Rattle.packing.specs.Packed.{packed_number, check_lower, step_lower, Bounded, StepCounted};

use answer::{Checked, Refusal};
use reduction::StepReport;

// A check of tables: 0 for a pass.
fn pass_number(check: Checked) -> u64
    requires { Bounded (answer_of check) }
    ensures { result ≡ packed_number (check_lower (answer_of check)) }
{
    packing::answer(check.map(|()| 0))
}

/// The check of a groups table, questions 2 to 7: 0 for a pass.
#[tactic(auto, using(packing::proofs::Bounds::groups_bounded))]
#[unsafe(no_mangle)]
pub extern "C" fn probe_groups_check(groups: &[u8]) -> u64
    ensures { result ≡ packed_number (check_lower (groups_check groups.now)) }
{
    pass_number(groups_table::groups_check(groups))
}

/// The check of a groups table and a types table, questions 2 to 12 and 36: 0 for a pass.
#[tactic(auto, using(packing::proofs::Bounds::types_bounded))]
#[unsafe(no_mangle)]
pub extern "C" fn probe_types_check(groups: &[u8], types: &[u8]) -> u64
    ensures { result ≡ packed_number (check_lower (types_check groups.now types.now)) }
{
    pass_number(types_table::types_check(groups, types))
}

/// The check of a studio's own words, questions 32 to 34: 0 for a pass.
#[tactic(auto, using(packing::proofs::Bounds::words_bounded))]
#[unsafe(no_mangle)]
pub extern "C" fn probe_words_check(words: &[u8]) -> u64
    ensures { result ≡ packed_number (check_lower (words_check words.now)) }
{
    pass_number(words::words_check(words).map(|_| ()))
}

/// Bit `index` of a row: 1 or 0. It has no conditional jump; the gate reads that off the compiled function.
#[unsafe(no_mangle)]
pub extern "C" fn probe_bit(word: u32, index: u64) -> u64
    ensures { result ≡ (if bit word index then 1 else 0) }
{
    u64::from(lattice::bit(word, index as usize))
}

// A step: end * 65,536 + records.
fn step_number(step: Result<StepReport, Refusal>) -> u64
    requires { StepCounted (said_step step) }
    ensures { result ≡ packed_number (step_lower (said_step step)) }
{
    packing::answer(step.map(|report| {
        packing::end_and_count(reduction::end_number(report.stop), report.records)
    }))
}

/// One step of a script's term, questions 2 to 19 and 36: its end times 65,536 plus the record count. Where the term
/// moves, the new one fills the front of `written`, whose later bytes are kept.
#[tactic(auto, using(crate::proofs::Reports::step_counted))]
#[unsafe(no_mangle)]
pub extern "C" fn probe_step(groups: &[u8], types: &[u8], script: &[u8], written: &mut [u8]) -> u64
    ensures answer { result
        ≡ packed_number (step_lower (step_report script.now (step_call groups.now types.now script.now (length written.old)))) }
    ensures written { written.new
        ≡ written_after (step_call groups.now types.now script.now (length written.old)) written.old }
{
    step_number(reduction::step(groups, types, script, written))
}

/// The subterm of a script at a record: its bytes to the front of `copy`, as far as they fit, and their count.
#[unsafe(no_mangle)]
pub extern "C" fn probe_subterm(script: &[u8], index: u64, copy: &mut [u8]) -> u64
    ensures answer { result ≡ length (subterm script.now index) }
    ensures copy { copy.new ≡ fill_front (take (length copy.old) (subterm script.now index)) copy.old }
{
    let part = syntax::subterm(script, index as usize);
    memory::put_fitting(part, copy);
    part.len() as u64
}

/// Strips a script of its access marks, in place.
#[unsafe(no_mangle)]
pub extern "C" fn probe_strip_script(script: &mut [u8])
    ensures { script.new ≡ strip_script script.old }
{
    erasure::strip_script(script);
}

/// Strips a types table of its access marks, in place.
#[unsafe(no_mangle)]
pub extern "C" fn probe_strip_types(types: &mut [u8])
    ensures { types.new ≡ strip_types types.old }
{
    erasure::strip_types(types);
}
