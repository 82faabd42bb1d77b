// The loan desk's packet: the sheet, for the desk's group, of a script applied to an entry as that group.

#![tactic(auto)]

ghost use Rattle.std.specs.Prelude.{◌≡◌, [], ◌∷◌, ℕ, ◌+◌, ◌≤◌, min, nat_eq, length};
ghost use Rattle.calculus.specs.Types.{Ty};
ghost use Rattle.rules.specs.Answer.{accepted};
ghost use Rattle.rules.specs.Limits.{work_length, answer_length};
ghost use Rattle.rules.specs.Groups.{rows, properties_of};
ghost use Rattle.rules.specs.Types.{type_at};
ghost use Rattle.rules.specs.Script.{records, term, depth, q13};
ghost use Rattle.rules.specs.Typing.{q21, typing};
ghost use Rattle.rules.specs.Run.{run};
ghost use Rattle.rules.specs.Calls.{q25, q26};
ghost use Rattle.rules.specs.Packet.{application, q1_work, q39_if, q37, q38, q18_whole, before_typing, packet_of_run, packet_call};
ghost use Rattle.rules.specs.Packet.{packet_report, packet_page_after};
ghost use Rattle.promises.specs.Packet.{PacketByHand};
ghost use Rattle.answer.specs.Said.{answer_of};
ghost use Rattle.types.specs.Held.{Held, Starts};
ghost use Rattle.memory.specs.Splice.{splice};
ghost use Rattle.reduction.specs.Steps.{reported_end};
ghost use Rattle.evaluation.specs.Runs.{ReportsRun};
ghost use Rattle.packet.specs.Reports.{said_packet, LeavesPacket};
ghost use Rattle.packet.specs.Checks.{says_value, entry_asked, call_check, size_check, from_26, from_typing};
ghost use Rattle.packet.specs.Checks.{Accepted19, WholeTerm, SetApart, TypesAtHand};
ghost use Rattle.packet.specs.Runs.{Runnable, LeftByRun};

use answer::{Checked, Question, Refusal};
use evaluation::Halt;
use inference::SLOT;
use lattice::{Creator, Group, Indirect, IndirectCreator, Property, Reader};
use memory::Writer;
use records::{Kind, SCRIPT_WIDTH};
use redex::Found;
use reduction::Stop;
use scope::DEPTH_LIMIT;
use script::SCRIPT_LIMIT;
use types::TYPE_WIDTH;
use typing::WORK_LENGTH;

/// A packet: how the run of the application of a script to an entry ended, with its sheet where it ended with a value.
#[derive(Clone, Copy, Debug, PartialEq, Eq)]
pub struct Packet {
    /// Why no step moves the last term, or nothing where the budget is spent on a term that is no value.
    pub stop: Option<Stop>,
    /// The steps made, at most the budget.
    pub steps: u64,
    /// The records of the sheet where the run ended with a value, and else those of the last term.
    pub records: usize,
}

// 1. Is the work buffer long enough? There is no answer buffer.
fn ask_buffer_length(work: &[u8]) -> Checked
    ensures { answer_of result ≡ q1_work (length work.now) }
{
    answer::ask(Question::BufferLengths, 0, WORK_LENGTH <= work.len())
}

// 39, under any profile but 0.
#[tactic(auto, unfolding(rules::specs::Packet::q39_if))]
fn ask_profile(script: &[u8], profile: u64) -> Checked
    ensures { answer_of result ≡ q39_if profile script.now }
{
    if profile == 0 {
        return Ok(());
    }
    script::question_39(script)
}

// The questions before the script's typing.
#[tactic(auto, using(answer::proofs::Passed::then_asked, answer::proofs::Passed::stopped), unfolding(rules::specs::Packet::before_typing))]
fn before_typing(groups: &[u8], types: &[u8], script: &[u8], profile: u64, work: &[u8]) -> Checked
    ensures { answer_of result ≡ before_typing groups.now types.now script.now profile (length work.now) }
{
    let long = ask_buffer_length(work);
    let Ok(()) = long else {
        return long;
    };
    let passed = syntax::script_check(groups, types, script, &[]);
    let Ok(()) = passed else {
        return passed;
    };
    ask_profile(script, profile)
}

// Questions 20 to 24 and 31 of a script, whose type is set apart: it outlives the typing of another.
fn type_apart(
    groups: &[u8],
    types: &[u8],
    script: &[u8],
    work: &mut [u8],
    apart: &mut [u8],
) -> Checked
    requires accepted { Accepted19 groups.now types.now script.now }
    requires work { work_length ≤ length work.old }
    requires apart { answer_length ≤ length apart.old }
    ensures { SetApart (typing (properties_of groups.now) (type_at types.now) [] 0 (term script.now)) (answer_of result)
        apart.new }
{
    let n = typing::type_script(groups, types, script, work)?;
    memory::put(&work[..TYPE_WIDTH * n], apart, 0);
    Ok(())
}

// The entry's 13 to 19 and 39. The tables have passed 2 to 12 with the script.
#[tactic(auto, using(answer::proofs::Passed::then_asked, answer::proofs::Passed::stopped), unfolding(crate::specs::Checks::entry_asked))]
fn entry_check(groups: &[u8], types: &[u8], entry: &[u8], profile: u64) -> Checked
    ensures { answer_of result ≡ entry_asked groups.now types.now entry.now profile }
{
    let passed = syntax::own_check(groups, types, entry, &[]);
    let Ok(()) = passed else {
        return passed;
    };
    ask_profile(entry, profile)
}

// Is a value found, and no redex or what is in its way?
fn is_value(found: Found) -> bool
    ensures { result ≡ says_value found }
{
    match found {
        Found::Value(_) => true,
        Found::Redex { .. } | Found::Denied | Found::Stuck => false,
    }
}

// 26. Is the entry a value?
fn ask_value(groups: &[u8], types: &[u8], entry: &[u8]) -> Checked
    requires { Accepted19 groups.now types.now entry.now }
    ensures { answer_of result ≡ q26 (term entry.now) }
{
    let found = redex::find(groups, types, entry, 0, 0);
    answer::ask(Question::Value, 0, is_value(found))
}

// 25. Is the group in the table? It is compared as it comes, before it is narrowed.
fn ask_given(groups: &[u8], group: u64) -> Checked
    ensures { answer_of result ≡ q25 0 group (rows groups.now) }
{
    answer::ask(
        Question::Given,
        0,
        group < lattice::row_count(groups) as u64,
    )
}

// 37. Is the script's type a function?
fn ask_applied(script_type: &[u8]) -> Checked
    requires { Starts script_type.now }
    ensures { (s : Ty) → Held script_type.now s → answer_of result ≡ q37 s }
{
    let is_function = types::kind_of(script_type) == types::Kind::Function;
    answer::ask(Question::Applied, 0, is_function)
}

// 21. May this group apply it?
fn ask_reader(groups: &[u8], script_type: &[u8], group: Reader) -> Checked
    requires { Starts script_type.now }
    ensures { (s : Ty) → Held script_type.now s → answer_of result ≡ q21 (properties_of groups.now) 0 s group.0 }
{
    let may = types::reader(script_type).at_or_below(groups, group);
    answer::ask(Question::Reader, 0, may)
}

// 38. Is the entry's type at or below the left side of the script's?
fn ask_entry(groups: &[u8], entry_type: &[u8], script_type: &[u8]) -> Checked
    requires entry_type { Starts entry_type.now }
    requires function { (s : Ty) × Held script_type.now s × (q37 s ≡ accepted tt) }
    ensures { (u s : Ty) → Held entry_type.now u → Held script_type.now s → q37 s ≡ accepted tt
        → answer_of result ≡ q38 (properties_of groups.now) u s }
{
    let wanted = types::left_side(script_type);
    let fits = subtyping::is_subtype(groups, entry_type, wanted);
    answer::ask(Question::Entry, 0, fits)
}

// 37, 21 and 38, in this order.
fn call_check(groups: &[u8], script_type: &[u8], entry_type: &[u8], group: Reader) -> Checked
    requires script_type { Starts script_type.now }
    requires entry_type { Starts entry_type.now }
    ensures { (s u : Ty) → Held script_type.now s → Held entry_type.now u
        → answer_of result ≡ call_check groups.now group.0 s u }
{
    let function = ask_applied(script_type);
    let Ok(()) = function else {
        return function;
    };
    let may = ask_reader(groups, script_type, group);
    let Ok(()) = may else {
        return may;
    };
    ask_entry(groups, entry_type, script_type)
}

// The records of the application: its own, and those of script and entry.
fn application_records(script: &[u8], entry: &[u8]) -> usize
    ensures { result ≡ 1 + (records script.now + records entry.now) }
{
    1 + (records::record_count(script) + records::record_count(entry))
}

// 13 of the application.
fn ask_script_length(script: &[u8], entry: &[u8], first: usize, scratch: usize) -> Checked
    requires script { WholeTerm script.now }
    requires entry { WholeTerm entry.now }
    ensures { (group : ℕ) → answer_of result ≡ q13 (first ∷ scratch ∷ []) (application group script.now entry.now) }
{
    let records = application_records(script, entry);
    let length = SCRIPT_WIDTH * records;
    let fits = (records <= SCRIPT_LIMIT) & ((length <= first) & (length <= scratch));
    answer::ask(Question::ScriptLength, 0, fits)
}

// How deep the deepest record of a script is.
fn depth_of(script: &[u8]) -> usize
    requires { WholeTerm script.now }
    ensures { result ≡ depth (term script.now) }
{
    substitution::extent_at(script, 0).size.depth
}

// 18 of the application, which is one record deeper than the deeper of its operands.
fn ask_depth(script: &[u8], entry: &[u8]) -> Checked
    requires script { WholeTerm script.now }
    requires entry { WholeTerm entry.now }
    ensures { (group : ℕ) → answer_of result ≡ q18_whole (application group script.now entry.now) }
{
    let deeper = depth_of(script).max(depth_of(entry));
    answer::ask(Question::Depth, 0, deeper < DEPTH_LIMIT)
}

// 13 and 18 of the application.
#[tactic(auto, using(answer::proofs::Passed::then_asked, answer::proofs::Passed::stopped), unfolding(crate::specs::Checks::size_check))]
fn size_check(script: &[u8], entry: &[u8], first: usize, scratch: usize) -> Checked
    requires script { WholeTerm script.now }
    requires entry { WholeTerm entry.now }
    ensures { (group : ℕ) → answer_of result ≡ size_check script.now entry.now group first scratch }
{
    let fits = ask_script_length(script, entry, first, scratch);
    let Ok(()) = fits else {
        return fits;
    };
    ask_depth(script, entry)
}

// What is asked once script and entry have their types.
fn from_26(
    groups: &[u8],
    types: &[u8],
    script: &[u8],
    entry: &[u8],
    group: u64,
    script_type: &[u8],
    entry_type: &[u8],
    first: usize,
    scratch: usize,
) -> Checked
    requires { TypesAtHand groups.now types.now script.now entry.now script_type.now entry_type.now }
    ensures { (q : TypesAtHand groups.now types.now script.now entry.now script_type.now entry_type.now)
        → answer_of result ≡ from_26 groups.now script.now entry.now group first scratch q.script_type q.entry_type }
{
    let value = ask_value(groups, types, entry);
    let Ok(()) = value else {
        return value;
    };
    let given = ask_given(groups, group);
    let Ok(()) = given else {
        return given;
    };
    let reader = Reader(group as u8);
    let called = call_check(groups, script_type, entry_type, reader);
    let Ok(()) = called else {
        return called;
    };
    size_check(script, entry, first, scratch)
}

// What is asked from the script's typing on. The entry's type is left in front of the work buffer.
fn from_typing(
    groups: &[u8],
    types: &[u8],
    script: &[u8],
    entry: &[u8],
    group: u64,
    profile: u64,
    work: &mut [u8],
    first: usize,
    scratch: usize,
) -> Checked
    requires accepted { Accepted19 groups.now types.now script.now }
    requires work { work_length ≤ length work.old }
    ensures { answer_of result ≡ from_typing groups.now types.now script.now entry.now group profile first scratch }
{
    let mut script_type = [0; SLOT];
    type_apart(groups, types, script, work, &mut script_type)?;
    entry_check(groups, types, entry, profile)?;
    typing::type_script(groups, types, entry, work)?;
    from_26(
        groups,
        types,
        script,
        entry,
        group,
        &script_type,
        work,
        first,
        scratch,
    )
}

// The application as this group, built at the front of a buffer.
fn build(group: Reader, script: &[u8], entry: &[u8], first: &mut [u8])
    requires { length (application group.0 script.now entry.now) ≤ length first.old }
    ensures { first.new ≡ splice 0 (application group.0 script.now entry.now) first.old }
{
    let property = Property {
        r: group,
        ir: Indirect(0),
        c: Creator(0),
        ic: IndirectCreator(0),
    };
    let mut out = Writer::new(first);
    out.put(&records::record(Kind::Application, property, 0));
    out.put(script);
    out.put(entry);
}

// The application's run, which starts where it is built.
fn run(
    groups: &[u8],
    types: &[u8],
    script: &[u8],
    entry: &[u8],
    group: Reader,
    budget: u64,
    first: &mut [u8],
    scratch: &mut [u8],
) -> Halt
    requires { Runnable groups.now types.now script.now entry.now group.0 (length first.old) (length scratch.old) }
    ensures { ReportsRun (run (properties_of groups.now) (type_at types.now) (min (length first.old) (length scratch.old))
        budget (term (application group.0 script.now entry.now))) first.old scratch.old result first.new scratch.new }
{
    build(group, script, entry, first);
    let records = application_records(script, entry);
    evaluation::run_term(groups, types, records, budget, first, scratch)
}

// Has a run ended with a value?
fn is_at_value(stop: Option<Stop>) -> bool
    ensures { result ≡ nat_eq (reported_end stop) 0 }
{
    match stop {
        Some(Stop::Value) => true,
        Some(Stop::MayNot | Stop::WrongKind | Stop::TooBig) | None => false,
    }
}

// The packet of a run whose last term stands at the front of `first`: a sheet if it is a value, and 27 then.
fn packet_of(
    groups: &[u8],
    types: &[u8],
    halt: Halt,
    first: &[u8],
    group: u64,
    sheet: &mut [u8],
) -> Result<Packet, Refusal>
    requires { LeftByRun groups.now types.now group halt first.now }
    ensures answer { (q : LeftByRun groups.now types.now group halt first.now)
        → said_packet result ≡ packet_report (packet_of_run groups.now group (length sheet.old) q.ran) }
    ensures sheet { (q : LeftByRun groups.now types.now group halt first.now)
        → sheet.new ≡ packet_page_after (packet_of_run groups.now group (length sheet.old) q.ran) sheet.old }
{
    if !is_at_value(halt.stop) {
        return Ok(Packet {
            stop: halt.stop,
            steps: halt.steps,
            records: halt.records,
        });
    }
    let value = &first[..SCRIPT_WIDTH * halt.records];
    let records = sheet::page(groups, types, value, group, sheet)?;
    Ok(Packet {
        stop: halt.stop,
        steps: halt.steps,
        records,
    })
}

/// Issues a packet: the sheet, for the reader group `group`, of `script` applied to `entry` as that group, from a run
/// of at most `budget` steps. Where the run ends with a value, its sheet fills the front of `sheet`, whose later
/// bytes are kept; at any other end `sheet` is kept.
///
/// Refuses, in this order: a `work` that is too short (question 1, place 0); a groups table, types table or script
/// that isn't well made (2 to 19 and 36) and, under a profile that isn't 0, a recursion in it (39); a script without
/// a type (20 to 24 and 31); the same of `entry`; then at place 0 an entry that is no value (26), a group that isn't
/// in the table (25), a script that is no function (37), that the group may not apply (21), or whose left side the
/// entry's type isn't at or below (38), an application that `first` or `scratch` has no room for (13), or that is too
/// deep (18); and after the run a `sheet` that is too short (27).
///
/// `work` is left all zeros once the script's typing has begun, and kept before. Once there was a run, `first` holds
/// the last term and then zeros, and `scratch` is all zeros, whatever is answered; before, both are kept.
///
/// `promise` is what a desk may rely on: the packet is that of building the application by hand, running it and
/// showing its last term.
pub fn issue(
    groups: &[u8],
    types: &[u8],
    script: &[u8],
    entry: &[u8],
    group: u64,
    budget: u64,
    profile: u64,
    work: &mut [u8],
    first: &mut [u8],
    scratch: &mut [u8],
    sheet: &mut [u8],
) -> Result<Packet, Refusal>
    ensures answer { said_packet result ≡ packet_report (packet_call groups.now types.now script.now entry.now group budget
        profile (length work.old) (length first.old) (length scratch.old) (length sheet.old)) }
    ensures lent { LeavesPacket groups.now types.now script.now entry.now group budget profile
        work.old first.old scratch.old sheet.old work.new first.new scratch.new sheet.new }
    ensures promise { PacketByHand groups.now types.now script.now entry.now group budget profile
        (length work.old) first.old scratch.old (length sheet.old) }
{
    before_typing(groups, types, script, profile, work)?;
    let (m, n) = (first.len(), scratch.len());
    let asked = from_typing(groups, types, script, entry, group, profile, work, m, n);
    memory::clear(work);
    asked?;
    let reader = Reader(group as u8);
    let halt = run(groups, types, script, entry, reader, budget, first, scratch);
    packet_of(groups, types, halt, first, group, sheet)
}
