// The run: steps repeated within a budget.

#![tactic(auto)]

ghost use Rattle.std.specs.Prelude.{◌≡◌, ◌+◌, ◌-◌, ◌*◌, ◌≤◌, min, length, drop};
ghost use Rattle.calculus.specs.Types.{Ty};
ghost use Rattle.rules.specs.Groups.{properties_of};
ghost use Rattle.rules.specs.Types.{type_at};
ghost use Rattle.rules.specs.Limits.{script_width};
ghost use Rattle.rules.specs.Script.{records as record_count};
ghost use Rattle.rules.specs.Run.{run};
ghost use Rattle.rules.specs.Reach.{Accepted};
ghost use Rattle.rules.specs.Calls.{run_call};
ghost use Rattle.memory.specs.Splice.{splice};
ghost use Rattle.evaluation.specs.Runs.{front_term, Loaded, Halted, ReportsRun, run_end, AnswersRun, PromisedRun};

use answer::Refusal;
use records::SCRIPT_WIDTH;
use reduction::Stop;
use refocusing::{Ended, Point};

/// How a run of a term ends.
#[derive(Clone, Copy, Debug, PartialEq, Eq)]
pub struct Halt {
    /// Why no step moves its last term, or nothing where the budget is spent on a term that is no value.
    pub stop: Option<Stop>,
    /// The steps made, at most the budget.
    pub steps: u64,
    /// The records of the last term.
    pub records: usize,
}

// The end of the run of a whole term: the run of one that is settled ends at a value.
fn end_of(settled: Result<Point, Ended>) -> Ended
    ensures { result ≡ run_end settled }
{
    match settled {
        Ok(point) => Ended {
            stop: Some(Stop::Value),
            point,
        },
        Err(ended) => ended,
    }
}

// The records right of the gap, put after those left of it: so many there are.
fn gather(point: Point, a: &mut [u8], b: &[u8]) -> usize
    requires source { script_width * point.right ≤ length b.now }
    requires room { script_width * point.left + (length b.now - script_width * point.right) ≤ length a.old }
    ensures count { result ≡ point.left + (record_count b.now - point.right) }
    ensures gathered { a.new ≡ splice (script_width * point.left) (drop (script_width * point.right) b.now) a.old }
{
    memory::put(
        &b[SCRIPT_WIDTH * point.right..],
        a,
        SCRIPT_WIDTH * point.left,
    );
    point.left + (records::record_count(b) - point.right)
}

// A run of the term at the front of `a`, in two buffers of one length. It is the term in focus, and goes over to the
// end of `b`.
fn walk(
    groups: &[u8],
    types: &[u8],
    records: usize,
    budget: u64,
    a: &mut [u8],
    b: &mut [u8],
) -> Halt
    requires loaded { Loaded groups.now types.now a.old records (length a.old) }
    requires same_length { length b.old ≡ length a.old }
    requires whole_records { script_width * record_count b.old ≡ length b.old }
    ensures { Halted
        (run (properties_of groups.now) (type_at types.now) (length a.old) budget (front_term a.old records))
        (length a.old) result a.new }
{
    let right = records::record_count(b) - records;
    memory::put(&a[..SCRIPT_WIDTH * records], b, SCRIPT_WIDTH * right);
    let begun = Point {
        left: 0,
        right,
        steps: 0,
    };
    let ended = end_of(refocusing::settle(groups, types, budget, 0, begun, a, b));
    Halt {
        stop: ended.stop,
        steps: ended.point.steps,
        records: gather(ended.point, a, b),
    }
}

/// The run of the term that `first` starts with, of this many records, within a budget of steps. Too big is judged
/// with the shorter of the two buffers, of which the whole records count. Afterwards `first` holds the last term,
/// then zeros, and `scratch` is all zeros.
pub fn run_term(
    groups: &[u8],
    types: &[u8],
    records: usize,
    budget: u64,
    first: &mut [u8],
    scratch: &mut [u8],
) -> Halt
    requires { Loaded groups.now types.now first.old records (min (length first.old) (length scratch.old)) }
    ensures { ReportsRun (run (properties_of groups.now) (type_at types.now) (min (length first.old) (length scratch.old))
        budget (front_term first.old records)) first.old scratch.old result first.new scratch.new }
{
    let room = SCRIPT_WIDTH * (first.len().min(scratch.len()) / SCRIPT_WIDTH);
    let x = walk(
        groups,
        types,
        records,
        budget,
        &mut first[..room],
        &mut scratch[..room],
    );
    let end = SCRIPT_WIDTH * x.records;
    memory::clear_from(first, end);
    memory::clear(scratch);
    x
}

/// The run of a script's term within a budget of steps. Refused where the groups table, the types table or the script
/// doesn't pass, or one of the two buffers is shorter than the script (questions 2 to 19 and 36, in order, with the
/// place in what was asked); nothing is written then. Afterwards `first` holds the last term, then zeros, and
/// `scratch` is all zeros. `promise`: the run of a script that checking accepts, in buffers that hold it, isn't
/// refused, doesn't end because a reader may not or an operand is of the wrong kind, and is step for step that of the
/// script without its access marks.
pub fn run(
    groups: &[u8],
    types: &[u8],
    script: &[u8],
    budget: u64,
    first: &mut [u8],
    scratch: &mut [u8],
) -> Result<Halt, Refusal>
    ensures outcome { AnswersRun
        (run_call groups.now types.now script.now budget (length first.old) (length scratch.old))
        first.old scratch.old result first.new scratch.new }
    ensures promise { (type : Ty) → Accepted groups.now types.now script.now type
        → length script.now ≤ length first.old → length script.now ≤ length scratch.old
        → PromisedRun groups.now types.now script.now type budget first.old scratch.old result first.new scratch.new }
{
    syntax::script_check(groups, types, script, &[first.len(), scratch.len()])?;
    memory::put(script, first, 0);
    let records = records::record_count(script);
    Ok(run_term(groups, types, records, budget, first, scratch))
}
