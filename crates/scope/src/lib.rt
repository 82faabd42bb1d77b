// The check of a script's term: its depth, question 18, and its variables against the binders over them, question 19.

#![tactic(auto)]

ghost use Rattle.std.specs.Prelude.{◌≡◌, ◌+◌, ◌*◌, ◌≤◌, ◌<◌};
ghost use Rattle.calculus.specs.Terms.{Term};
ghost use Rattle.rules.specs.Script.{records, encode, term, q18, q19};
ghost use Rattle.answer.specs.Numbers.{question_number};
ghost use Rattle.answer.specs.Said.{answer_of};
ghost use Rattle.records.specs.Numbers.{kind_number};
ghost use Rattle.records.specs.Place.{At, Here};
ghost use Rattle.scope.specs.Walk.{WalkCount, depth_count, binder_count, scan_records, question_of_count, root, count_within, numbers_from, increment, count_question};

use answer::{Checked, Question, Refusal};
use records::Kind;

/// The greatest depth of a term.
pub const DEPTH_LIMIT: usize = 256;

// What a walk over a term counts: a number for each record, of which a question is asked.
trait Count {
    ghost counted: { WalkCount };

    fn question() -> Question
        ensures { question_number result ≡ question_of_count counted };

    // The number of a script's first record.
    fn root() -> usize
        ensures value { result ≡ root counted }
        ensures small { result ≤ 1 };

    // The answer for record i, whose number is n.
    fn passes(script: &[u8], i: usize, n: usize) -> bool
        requires { i < records script.now }
        ensures { result ≡ count_within counted script.now i n };

    // By how much the number of operand j, counted from 0, exceeds that of its record, which has this weight and this
    // kind.
    fn increment(weight: usize, kind: Kind, j: usize) -> usize
        requires { weight ≤ 2 }
        ensures value { result ≡ increment counted weight (kind_number kind) j }
        ensures small { result ≤ 2 };
}

// How deep a record stands.
struct Depth;

impl Count for Depth {
    ghost counted = { depth_count };

    fn question() -> Question {
        Question::Depth
    }

    fn root() -> usize {
        1
    }

    fn passes(_script: &[u8], _i: usize, n: usize) -> bool {
        n <= DEPTH_LIMIT
    }

    fn increment(weight: usize, _kind: Kind, _j: usize) -> usize {
        weight
    }
}

// How many binders stand over it.
struct Binders;

impl Count for Binders {
    ghost counted = { binder_count };

    fn question() -> Question {
        Question::Scope
    }

    fn root() -> usize {
        0
    }

    fn passes(script: &[u8], i: usize, n: usize) -> bool {
        match records::kind_at(script, i) {
            Some(Kind::Variable) => usize::from(records::number(script, i)) < n,
            _ => true,
        }
    }

    fn increment(_weight: usize, kind: Kind, j: usize) -> usize {
        usize::from(kind.binders(j))
    }
}

// The question of a count asked of each record of the term at record i, in script order: n is the number of that
// record, and the answer the record after the term. No call is deeper than the first record that is refused, and
// question 18 bounds the calls of question 19.
fn walk<C: Count>(script: &[u8], i: usize, n: usize) -> Result<usize, Refusal>
    requires here { Here script.now i }
    requires few { n ≤ 2 * i + 1 }
    ensures { (e : Term) → At script.now i e
        → answer_of result ≡ scan_records (question_of_count C.counted) (count_within C.counted script.now) i
        (numbers_from C.counted n e) }
{
    answer::ask(C::question(), i, C::passes(script, i, n))?;
    let weight = records::weight(script, i);
    let kind = records::kind_of(script, i);
    let mut next = i + 1;
    for j in 0..kind.arity() {
        next = walk::<C>(script, next, n + C::increment(weight, kind, j))?;
    }
    Ok(next)
}

// The question of a count, asked of each record of the script.
fn asked<C: Count>(script: &[u8]) -> Checked
    requires { encode (term script.now) ≡ script.now }
    ensures { answer_of result ≡ count_question C.counted script.now }
{
    walk::<C>(script, 0, C::root())?;
    Ok(())
}

/// No record deeper than 256, where the script is one whole term? Question 18, `Depth`, refused at the first record
/// that is.
#[tactic(auto, unfolding(rules::specs::Script::ok18))]
pub fn question_18(script: &[u8]) -> Checked
    requires { encode (term script.now) ≡ script.now }
    ensures { answer_of result ≡ q18 script.now }
{
    asked::<Depth>(script)
}

/// Is every variable's number below its count of binders, where the script is one whole term? Question 19, `Scope`,
/// refused at the first variable whose isn't.
#[tactic(auto, unfolding(rules::specs::Script::ok19))]
pub fn question_19(script: &[u8]) -> Checked
    requires { encode (term script.now) ≡ script.now }
    ensures { answer_of result ≡ q19 script.now }
{
    asked::<Binders>(script)
}
