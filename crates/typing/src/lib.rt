// The checker, which calls itself on each operand's part of the script, and the two checks.

#![tactic(auto)]

ghost use Rattle.std.specs.Prelude.{◌≡◌, [], ◌+◌, ◌≤◌, ◌<◌, length};
ghost use Rattle.calculus.specs.Terms.{Term};
ghost use Rattle.rules.specs.Answer.{accepted};
ghost use Rattle.rules.specs.Limits.{answer_length, work_length};
ghost use Rattle.rules.specs.Groups.{properties_of};
ghost use Rattle.rules.specs.Types.{type_at};
ghost use Rattle.rules.specs.Script.{encode, size, term};
ghost use Rattle.rules.specs.Typing.{typing};
ghost use Rattle.rules.specs.Calls.{q1, script_check, check_call, answer_after};
ghost use Rattle.rules.specs.Profile.{profile_checking};
ghost use Rattle.answer.specs.Said.{answer_of};
ghost use Rattle.records.specs.Place.{At};
ghost use Rattle.inference.specs.Memory.{Meets, CheckerInput};
ghost use Rattle.typing.specs.Parts.{OperandAt, PartOf, kept_between};
ghost use Rattle.typing.specs.Answers.{Answers};
ghost use Rattle.typing.specs.Judged.{HandsOver, Judged, JudgedInProfile};

use answer::{Checked, Question, Refusal};
use inference::{SECOND_PART, SLOT};
use scope::DEPTH_LIMIT;
use types::TYPE_WIDTH;

/// The bytes that a check needs of its work buffer: a slot for each level that a script may have (question 1).
pub const WORK_LENGTH: usize = DEPTH_LIMIT * SLOT;

// The record after operand j of a node of o, counted from 1, where it starts at record i. The last one ends where the
// node's part does, so that no record is scanned again for each one-operand record over it.
fn operand_end(s: &[u8], o: usize, j: usize, i: usize) -> usize
    requires { OperandAt s.now o j i }
    ensures { (e : Term) → At s.now i e → result ≡ i + size e }
{
    if j == o {
        records::record_count(s)
    } else {
        records::end_of(s, i)
    }
}

// The part of an operand, from its record i to its end.
fn operand(s: &[u8], i: usize, end: usize) -> &[u8]
    requires { PartOf s.now i end }
    ensures bytes { (e : Term) → At s.now i e → end ≡ i + size e → result.now ≡ encode e }
    ensures shorter { 1 ≤ i → length result.now < length s.now }
{
    records::part(s, i, end)
}

// Where the second operand's part of the work buffer starts: behind the first type of a node of two. A case has the
// tested sides in its slot.
fn kept_between(o: usize) -> usize
    ensures { result ≡ kept_between o }
{
    if o == 2 { SECOND_PART } else { 0 }
}

// The type of the node whose part of the script is `part`, whose record is record `place` of the script, under
// `binders` binders: operands first, left to right, with `inference`'s questions before, between and after them. A rest
// of the work buffer is lent on for each operand's type.
fn type_node(
    groups: &[u8],
    types: &[u8],
    part: &[u8],
    place: usize,
    binders: usize,
    work: &mut [u8],
) -> Result<usize, Refusal>
    requires { CheckerInput types.now part.now place binders work.old }
    ensures { (v : CheckerInput types.now part.now place binders work.old)
        → Meets (typing (properties_of groups.now) (type_at types.now) v.ctx place v.tree) binders
        work.old result work.new }
{
    let kind = records::kind_of(part, 0);
    let o = kind.arity();
    if o == 0 {
        return inference::leaf(part, binders, work);
    }
    inference::before_operands(groups, types, part, place, binders, work)?;
    let c = binders + usize::from(kind.binders(0));
    let i2 = operand_end(part, o, 1, 1);
    let low = inference::kept_front(part);
    let first = operand(part, 1, i2);
    let n = type_node(groups, types, first, place + 1, c, &mut work[low..])?;
    if o == 1 {
        return inference::after_one(groups, types, part, place, work, n);
    }
    let tested = types::property(work);
    inference::between(groups, part, place, binders, work, n)?;
    let c2 = binders + usize::from(kind.binders(1));
    let i3 = operand_end(part, o, 2, i2);
    let mid = kept_between(o);
    let second = operand(part, i2, i3);
    let m = type_node(groups, types, second, place + i2, c2, &mut work[mid..])?;
    if o == 2 {
        return inference::after_two(groups, types, part, place, work, n, m);
    }
    inference::after_first_branch(groups, types, part, place, binders, work)?;
    let end = operand_end(part, o, 3, i3);
    let past = inference::kept_branch(part);
    let third = operand(part, i3, end);
    type_node(groups, types, third, place + i3, c2, &mut work[past..])?;
    let by = tested.influence(groups, records::reader(part, 0));
    inference::after_second_branch(groups, types, part, place, by, work)
}

/// The type of a script whose tables and records have passed their questions. It is left in front of `work`, which
/// needs `WORK_LENGTH` bytes, and the answer is its record count, of `types::TYPE_WIDTH` bytes each.
///
/// Refuses what the typing rules refuse, at the record: an operand of the wrong kind (20) or one that a group may not
/// read (21), a type that isn't at or below the wanted one (22), a recursion whose result may not be read through it
/// (23), a type of too many records (24), two branches without a common type (31). What is in `work` then is left open.
pub fn type_script(
    groups: &[u8],
    types: &[u8],
    script: &[u8],
    work: &mut [u8],
) -> Result<usize, Refusal>
    requires checked { script_check [] groups.now types.now script.now ≡ accepted tt }
    requires room { work_length ≤ length work.old }
    ensures { Meets (typing (properties_of groups.now) (type_at types.now) [] 0 (term script.now)) 0
        work.old result work.new }
{
    type_node(groups, types, script, 0, 0, work)
}

// The found type to the front of the answer buffer, if there is one.
fn hand_over(x: Result<usize, Refusal>, work: &[u8], answer: &mut [u8])
    requires found { Answers x work.now }
    requires room { answer_length ≤ length answer.old }
    ensures { (v : Answers x work.now) → answer.new ≡ answer_after v.answer answer.old }
{
    if let Ok(n) = x {
        memory::put(&work[..TYPE_WIDTH * n], answer, 0);
    }
}

// Are work and answer buffer long enough (1)?
fn question_1(work: &[u8], answer: &[u8]) -> Checked
    ensures { answer_of result ≡ q1 (length work.now) (length answer.now) }
{
    let fits = (WORK_LENGTH <= work.len()) & (SLOT <= answer.len());
    answer::ask(Question::BufferLengths, 0, fits)
}

// The end of a check: the type to the answer buffer's front, and the work buffer left all zeros.
fn give_type(
    groups: &[u8],
    types: &[u8],
    script: &[u8],
    work: &mut [u8],
    answer: &mut [u8],
) -> Result<usize, Refusal>
    requires checked { script_check [] groups.now types.now script.now ≡ accepted tt }
    requires work_room { work_length ≤ length work.old }
    requires answer_room { answer_length ≤ length answer.old }
    ensures { HandsOver (typing (properties_of groups.now) (type_at types.now) [] 0 (term script.now))
        (answer_of result) work.old work.new answer.old answer.new }
{
    let x = type_script(groups, types, script, work);
    hand_over(x, work, answer);
    memory::clear(work);
    x
}

/// Checks a script against its two tables. The answer is the record count of its type, whose records, of
/// `types::TYPE_WIDTH` bytes each, are written to the front of `answer`.
///
/// Refuses the first question that is answered no, at its place: whether `work` and `answer` are long enough (1), what
/// is asked of the two tables and the script (2 to 19, 36), and the typing rules (20 to 24, 31). `answer` is then as it
/// was. `work` is left all zeros once typing has begun, and as it was before.
pub fn checking(
    groups: &[u8],
    types: &[u8],
    script: &[u8],
    work: &mut [u8],
    answer: &mut [u8],
) -> Result<usize, Refusal>
    ensures outcome { HandsOver (check_call (length work.old) (length answer.old) groups.now types.now script.now)
        (answer_of result) work.old work.new answer.old answer.new }
    ensures promise { work_length ≤ length work.old → answer_length ≤ length answer.old
        → Judged groups.now types.now script.now answer.old (answer_of result) answer.new }
{
    question_1(work, answer)?;
    syntax::script_check(groups, types, script, &[])?;
    give_type(groups, types, script, work, answer)
}

/// Checks a script as `check_call` does, and that it is in the profile of scripts that always finish: it has no
/// recursion.
///
/// Refuses a recursion (39), at its record, after the questions of the two tables and the script, and before the typing
/// rules.
pub fn profile_checking(
    groups: &[u8],
    types: &[u8],
    script: &[u8],
    work: &mut [u8],
    answer: &mut [u8],
) -> Result<usize, Refusal>
    ensures outcome { HandsOver (profile_checking (length work.old) (length answer.old) groups.now types.now script.now)
        (answer_of result) work.old work.new answer.old answer.new }
    ensures promise { work_length ≤ length work.old → answer_length ≤ length answer.old
        → JudgedInProfile groups.now types.now script.now answer.old (answer_of result) answer.new }
{
    question_1(work, answer)?;
    syntax::script_check(groups, types, script, &[])?;
    script::question_39(script)?;
    give_type(groups, types, script, work, answer)
}
