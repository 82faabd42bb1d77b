// Answers to checks, and the tests that several questions make.

#![tactic(auto)]

ghost use Rattle.std.specs.Prelude.{◌≡◌, ℕ, Bool, not, ◌&&◌, ◌/◌, ◌%◌, ◌<◌, nat_eq, nat_le, nat_lt};
ghost use Rattle.rules.specs.Answer.{◌⇒◌, ask, each, first_below, all_below};
ghost use Rattle.answer.specs.Numbers.{question_number};
ghost use Rattle.answer.specs.Said.{answer_of, option_of};

/// A question that a check asks, named by what it asks. Its number is its discriminant.
#[derive(Clone, Copy, Debug, PartialEq, Eq)]
pub enum Question {
    /// Are the work and the answer buffer long enough?
    BufferLengths = 1,
    /// Has the groups table whole rows, 1 to 32?
    GroupsLength = 2,
    /// Does a row name only groups of the table?
    BitsInTable = 3,
    /// Is a row's lowest group its own?
    LowestBit = 4,
    /// Does a row hold the rows of the groups that it names?
    Transitive = 5,
    /// Have two groups a lowest group above both?
    Joins = 6,
    /// Is group 0 below every group?
    LowestGroup = 7,
    /// Has the types table whole records, 1 to 4,096?
    TypesLength = 8,
    /// Are a type record's kind, groups and byte 3 right?
    TypeFields = 9,
    /// Are a type's indirect readers at or below its readers?
    TypeReaders = 10,
    /// Is the last type finished?
    WholeTypes = 11,
    /// Has a type at most 63 records?
    TypeLengths = 12,
    /// Has the script whole records, 1 to 8,192, and, in a run, do both run buffers hold it?
    ScriptLength = 13,
    /// Is a record's kind known, and are its unused fields 0?
    Fields = 14,
    /// Are a record's named groups in the table, and an object's indirect readers at or below its readers?
    Groups = 15,
    /// Is the type that a record names there and of the right form?
    NamedTypes = 16,
    /// Is the script exactly one whole term?
    OneTerm = 17,
    /// Is the script at most 256 levels deep?
    Depth = 18,
    /// Is a variable bound?
    Scope = 19,
    /// Is what is applied a function, what is projected a pair, what is tested a sum, and what is reckoned a number?
    Former = 20,
    /// Is the group that reads an object, or calls a recursion, one of its readers?
    Reader = 21,
    /// Is what is handed on at or below the type that is wanted?
    Wanted = 22,
    /// Is a recursion's result as secret as a call of it makes it, and are its creators no higher?
    Recursion = 23,
    /// Has the type of a function or a pair at most 63 records?
    FoundLength = 24,
    /// Is the given index or group in its table, and, in a list, a script's type in the types table?
    Given = 25,
    /// Is the script a value?
    Value = 26,
    /// Does the answer fit its buffer?
    Room = 27,
    /// Has a script of the old office program whole records, 1 to 6,000, and a script to be exported at most 6,000?
    OfficeLength = 28,
    /// Is a name that isn't used 0, and a variable's number?
    UnusedNames = 29,
    /// Has a name a binder?
    BoundNames = 30,
    /// Have the branches of a case that finds its type a common one?
    CommonType = 31,
    /// Has the table of words 84 bytes?
    WordsLength = 32,
    /// Is a word 1 to 12 letters a to z and then zero bytes?
    Letters = 33,
    /// Is a word none of the earlier ones?
    DistinctWords = 34,
    /// Is the preview the one that the script and the buffer give?
    Preview = 35,
    /// Are a type's or an object's indirect creators at or below its creators?
    Creators = 36,
    /// Has the script that is applied a function's type?
    Applied = 37,
    /// Is the entry's type at or below the function's left side?
    Entry = 38,
    /// Is a record no recursion, so that the script always finishes?
    Profile = 39,
    /// Are both lists whole; is an entry's script in the list and new, and the one that it replaces listed before?
    Lists = 40,
    /// Is a script replaced by one entry only?
    ReplacedOnce = 41,
    /// Is a script's type the same as or below that of the one that it replaces?
    AmendedType = 42,
}

impl Question {
    /// Its number, 1 to 42: the one that an answer at the C surface carries.
    pub fn number(self) -> u8
        ensures { result ≡ question_number self }
    {
        self as u8
    }
}

/// A check's refusal: the first question that is answered no, in the order in which the check asks.
#[derive(Clone, Copy, Debug, PartialEq, Eq)]
pub struct Refusal {
    /// The question.
    pub question: Question,
    /// Where it is answered no: mostly the index of a row or a record, and 0 where a question has one place.
    pub place: usize,
}

/// The answer to a check that gives nothing but yes.
pub type Checked = Result<(), Refusal>;

/// The answer to one question: refused at `place` unless `yes`.
pub fn ask(question: Question, place: usize, yes: bool) -> Checked
    ensures { answer_of result ≡ ask (question_number question) place yes }
{
    if yes {
        Ok(())
    } else {
        Err(Refusal { question, place })
    }
}

// The first number below `count` that doesn't pass.
fn first_failing<F: Fn(usize) -> bool>(count: usize, passes: F) -> Option<usize>
    requires { (i : ℕ) → i < count → F.pre passes i }
    ensures { (test : ℕ → Bool) → ((i : ℕ) (b : Bool) → i < count → F.post passes i b → b ≡ test i)
        → option_of result ≡ first_below (λ i. not (test i)) count }
{
    for i in 0..count {
        if !passes(i) {
            return Some(i);
        }
    }
    None
}

/// The answer to a question of each of `count` rows or records, in rising order: refused at the first that doesn't
/// pass.
pub fn each<F: Fn(usize) -> bool>(question: Question, count: usize, passes: F) -> Checked
    requires { (i : ℕ) → i < count → F.pre passes i }
    ensures { (test : ℕ → Bool) → ((i : ℕ) (b : Bool) → i < count → F.post passes i b → b ≡ test i)
        → answer_of result ≡ each (question_number question) count test }
{
    match first_failing(count, passes) {
        None => Ok(()),
        Some(place) => Err(Refusal { question, place }),
    }
}

/// Do all numbers below `count` pass? `passes` is asked in rising order, up to the first that doesn't.
pub fn all<F: Fn(usize) -> bool>(count: usize, passes: F) -> bool
    requires { (i : ℕ) → i < count → F.pre passes i }
    ensures { (test : ℕ → Bool) → ((i : ℕ) (b : Bool) → i < count → F.post passes i b → b ≡ test i)
        → result ≡ all_below test count }
{
    first_failing(count, passes).is_none()
}

/// Do `length` bytes make whole rows or records of `width` bytes, at least 1 and at most `limit`?
pub fn whole(length: usize, width: usize, limit: usize) -> bool
    requires { 0 < width }
    ensures { result ≡ (nat_eq (length % width) 0 && (nat_le 1 (length / width) && nat_le (length / width) limit)) }
{
    let n = length / width;
    // joined by `&`: each test is cheap, and one answer is one fact to prove
    (length % width == 0) & ((1 <= n) & (n <= limit))
}

/// Is `value` below `count`? Yes too where it isn't `asked`.
pub fn below_if(asked: bool, value: usize, count: usize) -> bool
    ensures { result ≡ (asked ⇒ nat_lt value count) }
{
    !asked | (value < count)
}
