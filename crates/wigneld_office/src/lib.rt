// The functions that the office's programs call, on numbers and byte slices. A call that asks questions answers packed,
// as the editor's do: refused is question * 2^32 + place; otherwise the upper half is 0 and the lower half is what the
// call answers. One that asks none answers the plain number. All bytes, all lengths and all numbers get an answer.

#![tactic(auto)]

ghost use Rattle.std.specs.Prelude.{◌≡◌, ◌≤◌, length};
ghost use Rattle.rules.specs.Limits.{type_width, script_width, office_width, work_length, answer_length};
ghost use Rattle.rules.specs.Callers.{write_callers, callers_written, write_office_callers, office_callers_written};
ghost use Rattle.rules.specs.Office.{import_call, export_call};
ghost use Rattle.rules.specs.Calls.{compare_call};
ghost use Rattle.rules.specs.Profile.{profile_checking};
ghost use Rattle.rules.specs.Rewriting.{rewriting_types, rewriting_script, rewritten_records, rewritten_after};
ghost use Rattle.rules.specs.InForce.{in_force};
ghost use Rattle.answer.specs.Said.{answer_of};
ghost use Rattle.types_table.specs.Answered.{comparison_answer};
ghost use Rattle.typing.specs.Judged.{JudgedInProfile};
ghost use Rattle.packing.specs.Packed.{packed_number, unpacked_answer, comparison_lower, Bounded, BoundedByLists};
ghost use Rattle.packing.specs.Tells.{TellsCheck};

use answer::Refusal;
use types_table::Comparison;

// A comparison's number, or the refusal.
fn comparison_number(outcome: Result<Comparison, Refusal>) -> u64
    requires { Bounded (comparison_answer outcome) }
    ensures { result ≡ packed_number (comparison_lower (comparison_answer outcome)) }
{
    packing::answer(outcome.map(|comparison| usize::from(comparison.number())))
}

/// Is the first of two types of a table the same as the second (2), below it (1), or neither (0)? `first` and
/// `second` are indexes of records of `types`, whole records of 6 bytes.
///
/// Refuses, in this order: a groups table or types table that isn't well made (questions 2 to 12 and 36, with the
/// place in what is asked); and an index that isn't in the table (25, place 0 for `first`, 1 for `second`).
#[tactic(auto, using(packing::proofs::Bounds::compare_bounded))]
#[unsafe(no_mangle)]
pub extern "C" fn wigneld_compare(groups: &[u8], types: &[u8], first: u64, second: u64) -> u64
    ensures { result ≡ packed_number (comparison_lower (compare_call groups.now types.now first second)) }
{
    comparison_number(types_table::compare(groups, types, first, second))
}

/// Puts r of its type into byte 1 of each recursion whose type is in the table, in place: what brings a script of form
/// 1 to form 2. `types` has records of 4 bytes and `script` records of 6. Every other byte is kept. The answer is how
/// many records it wrote. It asks no question.
#[unsafe(no_mangle)]
pub extern "C" fn wigneld_write_callers(types: &[u8], script: &mut [u8]) -> u64
    ensures answer { result ≡ callers_written types.now script.old }
    ensures script { script.new ≡ write_callers types.now script.old }
{
    rewriting::write_callers(types, script)
}

/// Writes a types table of 4-byte records in the present form to the front of `rewritten`, in records of 6 bytes with
/// group 0 as creators and as indirect creators. Bytes past them are kept. The answer is the number of records.
///
/// Refuses, in this order: a groups table or types table that isn't well made (questions 2 to 12, with the place in
/// what is asked); and a `rewritten` that is too short (27, place 0). A refusal writes nothing.
#[tactic(auto, using(packing::proofs::Bounds::rewriting_types_bounded, packing::proofs::Exported::rewritten_bounded, packing::proofs::Bounds::place_small))]
#[unsafe(no_mangle)]
pub extern "C" fn wigneld_rewrite_types(groups: &[u8], types: &[u8], rewritten: &mut [u8]) -> u64
    ensures answer { result
        ≡ packed_number (rewritten_records type_width (rewriting_types groups.now types.now (length rewritten.old))) }
    ensures rewritten { rewritten.new
        ≡ rewritten_after (rewriting_types groups.now types.now (length rewritten.old)) rewritten.old }
{
    packing::answer(rewriting::rewrite_types(groups, types, rewritten))
}

/// Writes a script of 6-byte records over a types table of 4-byte records in the present form to the front of
/// `rewritten`, in records of 8 bytes with group 0 as creators and as indirect creators. Bytes past them are kept.
/// The answer is the number of records.
///
/// Refuses, in this order: a groups table, types table or script that isn't well made (questions 2 to 19, with the
/// place in what is asked); and a `rewritten` that is too short (27, place 0). A refusal writes nothing.
#[tactic(auto, using(packing::proofs::Bounds::rewriting_script_bounded, packing::proofs::Exported::rewritten_bounded, packing::proofs::Bounds::place_small))]
#[unsafe(no_mangle)]
pub extern "C" fn wigneld_rewrite_script(
    groups: &[u8],
    types: &[u8],
    script: &[u8],
    rewritten: &mut [u8],
) -> u64
    ensures answer { result ≡ packed_number (rewritten_records script_width
        (rewriting_script groups.now types.now script.now (length rewritten.old))) }
    ensures rewritten { rewritten.new
        ≡ rewritten_after (rewriting_script groups.now types.now script.now (length rewritten.old)) rewritten.old }
{
    packing::answer(rewriting::rewrite_script(groups, types, script, rewritten))
}

/// Checks a script of the profile that always finishes: as `wigneld_check` does, but a script that has a recursion is
/// refused too, with the place of its first one (39, asked after 19). The answer, the questions and what is left in
/// `work` and `answer` are those of `wigneld_check`.
///
/// `promise` is of the answer that a caller reads off the number: in buffers that are long enough, it accepts exactly
/// the scripts without a recursion to which the typing rules give a type, reports the lowest, and each of them
/// finishes.
#[unsafe(no_mangle)]
pub extern "C" fn wigneld_check_profile(
    groups: &[u8],
    types: &[u8],
    script: &[u8],
    work: &mut [u8],
    answer: &mut [u8],
) -> u64
    ensures outcome { TellsCheck
        (profile_checking (length work.old) (length answer.old) groups.now types.now script.now)
        work.old answer.old result work.new answer.new }
    ensures promise { work_length ≤ length work.old → answer_length ≤ length answer.old
        → JudgedInProfile groups.now types.now script.now answer.old (unpacked_answer result) answer.new }
{
    packing::answer(typing::profile_checking(groups, types, script, work, answer))
}

// A script's number, or the refusal.
fn script_number(outcome: Result<u16, Refusal>) -> u64
    requires { BoundedByLists (answer_of outcome) }
    ensures { result ≡ packed_number (answer_of outcome) }
{
    packing::answer(outcome.map(usize::from))
}

/// The script in force from script `index` of a studio's list: the last of the scripts that replace it one after
/// another, or NO_SCRIPT (65,535) for an index that no amendment lists, one past the list too. `scripts` has for each
/// script the index of its type, in 2 bytes, lowest byte first; `amendments` has entries of two such numbers, the
/// script that the entry lists and the one that it replaces, or NO_SCRIPT for none.
///
/// Refuses, in this order: a groups table or types table that isn't well made (questions 2 to 12 and 36, with the
/// place in what is asked); lists without whole records or a list that is too long (40, place 0); a listed script
/// whose type isn't in the table (25, at the script); and of one entry after another, at the entry, a script that
/// isn't in the list, is listed before or replaces one that no entry before lists (40), one that replaces what is
/// replaced before (41), and one whose type is neither the same as that of the replaced nor below it (42).
#[tactic(auto, using(packing::proofs::Lists::in_force_bounded))]
#[unsafe(no_mangle)]
pub extern "C" fn wigneld_in_force(
    groups: &[u8],
    types: &[u8],
    scripts: &[u8],
    amendments: &[u8],
    index: u64,
) -> u64
    ensures { result ≡ packed_number (in_force groups.now types.now scripts.now amendments.now index) }
{
    script_number(amendments::in_force(groups, types, scripts, amendments, index))
}

/// Writes a script of the old office program, in 10-byte records with names, in the present form to the front of
/// `script`, in records of 8 bytes. Bytes past them are kept. The answer is the number of records. A variable gets
/// the number of the nearest binder of its name, and every record group 0 as creators and as indirect creators.
///
/// Refuses, in this order and with the place in what is asked: a groups table or types table that isn't well made
/// (questions 2 to 12 and 36); an `old` that isn't 1 to 6,000 whole records (28); what 14 to 18 ask of the records
/// without their names; a field that isn't used and isn't 0 (29); a variable without a binder of its name (30); and a
/// `script` that is too short (27, place 0). A refusal writes nothing.
#[tactic(auto, using(packing::proofs::Bounds::importing_bounded, packing::proofs::Exported::rewritten_bounded, packing::proofs::Bounds::place_small))]
#[unsafe(no_mangle)]
pub extern "C" fn wigneld_import(groups: &[u8], types: &[u8], old: &[u8], script: &mut [u8]) -> u64
    ensures answer { result
        ≡ packed_number (rewritten_records script_width (import_call groups.now types.now old.now (length script.old))) }
    ensures script { script.new
        ≡ rewritten_after (import_call groups.now types.now old.now (length script.old)) script.old }
{
    packing::answer(importing::import(groups, types, old, script))
}

/// Writes a script in the old office program's form to the front of `old`, in 10-byte records with names. Bytes past
/// them are kept. The answer is the number of records. That form has no place for creators.
///
/// Refuses, in this order: a groups table, types table or script that isn't well made (questions 2 to 19 and 36, with
/// the place in what is asked); and at place 0 a script of more than 6,000 records (28), and an `old` that is too
/// short (27). A refusal writes nothing.
#[tactic(auto, using(packing::proofs::Bounds::exporting_bounded, packing::proofs::Exported::rewritten_bounded, packing::proofs::Bounds::place_small))]
#[unsafe(no_mangle)]
pub extern "C" fn wigneld_export(groups: &[u8], types: &[u8], script: &[u8], old: &mut [u8]) -> u64
    ensures answer { result
        ≡ packed_number (rewritten_records office_width (export_call groups.now types.now script.now (length old.old))) }
    ensures old { old.new
        ≡ rewritten_after (export_call groups.now types.now script.now (length old.old)) old.old }
{
    packing::answer(exporting::export(groups, types, script, old))
}

/// Puts r of its type into byte 1 of each recursion whose type is in the table, in place, in a script of the old
/// office program, of 10-byte records over a types table of the present form. Every other byte is kept. The answer is
/// how many records it wrote. It asks no question.
#[unsafe(no_mangle)]
pub extern "C" fn wigneld_write_office_callers(types: &[u8], old: &mut [u8]) -> u64
    ensures answer { result ≡ office_callers_written types.now old.old }
    ensures old { old.new ≡ write_office_callers types.now old.old }
{
    rewriting::write_office_callers(types, old)
}
