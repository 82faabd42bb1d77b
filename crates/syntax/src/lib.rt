// The check of a script over its tables, in the order of its questions, and the look-up of a part.

#![tactic(auto)]

ghost use Rattle.std.specs.Prelude.{◌≡◌, []};
ghost use Rattle.rules.specs.Answer.{accepted};
ghost use Rattle.rules.specs.Script.{q13, subterm};
ghost use Rattle.rules.specs.Calls.{form_check, own_check, script_check};
ghost use Rattle.answer.specs.Said.{answer_of};
ghost use Rattle.syntax.specs.Check.{shape_check};

use answer::Checked;

/// Is the script one whole term of records of known kinds? Questions 13 (of no buffer), 14 and 17, in order.
#[tactic(auto, using(answer::proofs::Passed::then_asked, answer::proofs::Passed::stopped), unfolding(crate::specs::Check::shape_check))]
pub fn shape_check(script: &[u8]) -> Checked
    ensures { answer_of result ≡ shape_check script.now }
{
    let whole = script::question_13(script, &[]);
    let Ok(()) = whole else {
        return whole;
    };
    let right = script::question_14(script);
    let Ok(()) = right else {
        return right;
    };
    script::question_17(script)
}

/// The form of a script over tables that pass: questions 14 to 18, in order, with 36 directly after 15.
#[tactic(auto, using(answer::proofs::Passed::then_asked, answer::proofs::Passed::stopped), unfolding(rules::specs::Calls::form_check))]
pub fn form_check(groups: &[u8], types: &[u8], script: &[u8]) -> Checked
    requires { q13 [] script.now ≡ accepted tt }
    ensures { answer_of result ≡ form_check groups.now types.now script.now }
{
    let a14 = script::question_14(script);
    let Ok(()) = a14 else {
        return a14;
    };
    let a15 = script::question_15(groups, script);
    let Ok(()) = a15 else {
        return a15;
    };
    let a36 = script::question_36(groups, script);
    let Ok(()) = a36 else {
        return a36;
    };
    let a16 = script::question_16(types, script);
    let Ok(()) = a16 else {
        return a16;
    };
    let a17 = script::question_17(script);
    let Ok(()) = a17 else {
        return a17;
    };
    scope::question_18(script)
}

/// The check of a script over tables that pass: questions 13 to 19, in order, with 36 directly after 15. `buffers`
/// are the lengths of what a run lends to write to, two of them; elsewhere there are none.
#[tactic(auto, using(answer::proofs::Passed::then_asked, answer::proofs::Passed::stopped, script::proofs::Rooms::alone), unfolding(rules::specs::Calls::own_check))]
pub fn own_check(groups: &[u8], types: &[u8], script: &[u8], buffers: &[usize]) -> Checked
    ensures { answer_of result ≡ own_check buffers.now groups.now types.now script.now }
{
    let fits = script::question_13(script, buffers);
    let Ok(()) = fits else {
        return fits;
    };
    let form = form_check(groups, types, script);
    let Ok(()) = form else {
        return form;
    };
    scope::question_19(script)
}

/// The check of a script and its tables, of any bytes: questions 2 to 19, in order, with 36 directly after 10 and
/// after 15. The first refusal is passed on.
#[tactic(auto, using(answer::proofs::Passed::then_asked, answer::proofs::Passed::stopped), unfolding(rules::specs::Calls::script_check))]
pub fn script_check(groups: &[u8], types: &[u8], script: &[u8], buffers: &[usize]) -> Checked
    ensures { answer_of result ≡ script_check buffers.now groups.now types.now script.now }
{
    let tables = types_table::types_check(groups, types);
    let Ok(()) = tables else {
        return tables;
    };
    own_check(groups, types, script, buffers)
}

/// The part of a script from record `index` to the end of that record's last operand; the empty part where question
/// 13, 14 or 17 is answered no or the index is past the end. It has no recursion: 8,192 levels are possible.
#[tactic(auto, using(records::proofs::Ends::end_inside, crate::proofs::Parts::shaped), unfolding(rules::specs::Script::subterm, crate::specs::Check::shape_check))]
pub fn subterm(script: &[u8], index: usize) -> &[u8]
    ensures { result.now ≡ subterm script.now index }
{
    let Ok(()) = shape_check(script) else {
        return &script[0..0];
    };
    let Some(end) = records::term_end(script, index) else {
        return &script[0..0];
    };
    records::part(script, index, end)
}
