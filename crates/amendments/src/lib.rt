// A studio's list of scripts and the list of its amendments: the check of both, and the script in force. Either list
// is gone over once for the check, and the amendments once more for the look-up.

#![tactic(auto)]

ghost use Rattle.std.specs.Prelude.{◌≡◌, ℕ, false, ◌||◌, ◌+◌, ◌<◌, nat_eq, length};
ghost use Rattle.rules.specs.Answer.{Bytes};
ghost use Rattle.rules.specs.InForce.{number_at, script_count, type_of, entry_count};
ghost use Rattle.rules.specs.InForce.{q40_lengths, q25_scripts, ok40, ok41, ok42};
ghost use Rattle.rules.specs.InForce.{entry_check, entries_check, lists_check, in_force};
ghost use Rattle.promises.specs.InForce.{newest_after, newest};
ghost use Rattle.answer.specs.Said.{answer_of, option_of};
ghost use Rattle.amendments.specs.Marked.{is_marked, number_count};
ghost use Rattle.amendments.specs.Seen.{Before, IsEntry, IndexesListed, ListsTyped};

use answer::{Checked, Question, Refusal};

/// The bytes of a script in a studio's list: the number of its type, lowest byte first.
pub const LISTED_WIDTH: usize = 2;

/// The bytes of an entry of a list of amendments: the index of a script and that of the script that it replaces, each
/// lowest byte first.
pub const ENTRY_WIDTH: usize = 4;

/// The most scripts of a studio's list.
pub const LISTED_LIMIT: usize = 65535;

/// No script, in the place of a script's index.
pub const NO_SCRIPT: u16 = 65535;

// Where an entry names the script that it replaces.
const REPLACED: usize = 2;

// A bit for each 16-bit number.
const SET_LENGTH: usize = 8192;

// A 16-bit number, lowest byte first.
fn number_at(bytes: &[u8], i: usize) -> u16
    requires { i + 1 < length bytes.now }
    ensures { result ≡ number_at bytes.now i }
{
    u16::from_le_bytes([bytes[i], bytes[i + 1]])
}

// How many whole scripts a studio's list has.
fn script_count(scripts: &[u8]) -> usize
    ensures { result ≡ script_count scripts.now }
{
    scripts.len() / LISTED_WIDTH
}

// The type that script i names.
fn type_of(scripts: &[u8], i: usize) -> usize
    requires { i < script_count scripts.now }
    ensures { result ≡ type_of scripts.now i }
{
    usize::from(number_at(scripts, LISTED_WIDTH * i))
}

// How many whole entries a list of amendments has.
fn entry_count(amendments: &[u8]) -> usize
    ensures { result ≡ entry_count amendments.now }
{
    amendments.len() / ENTRY_WIDTH
}

// A script, and the one that it replaces or NO_SCRIPT.
#[derive(Clone, Copy, Debug, PartialEq, Eq)]
struct Entry {
    first: u16,
    replaced: u16,
}

// Entry e of a list of amendments.
fn entry_at(amendments: &[u8], e: usize) -> Entry
    requires { e < entry_count amendments.now }
    ensures { IsEntry amendments.now e result }
{
    let at = ENTRY_WIDTH * e;
    let first = number_at(amendments, at);
    let replaced = number_at(amendments, at + REPLACED);
    Entry { first, replaced }
}

// A set of 16-bit numbers, by value: what is asked of it costs the same whatever it holds.
#[derive(Drop)]
struct Set([u8; SET_LENGTH]);

impl Set {
    fn empty() -> Set
        ensures { (i : ℕ) → i < number_count → is_marked result.0 i ≡ false }
    {
        Set([0; SET_LENGTH])
    }

    fn has(&self, i: u16) -> bool
        ensures { result ≡ is_marked self.now.0 i }
    {
        let i = usize::from(i);
        (self.0[i / 8] >> (i % 8)) % 2 == 1
    }

    fn put(&mut self, i: u16)
        ensures { (j : ℕ) → j < number_count → is_marked self.new.0 j ≡ (nat_eq i j || is_marked self.old.0 j) }
    {
        let i = usize::from(i);
        self.0[i / 8] |= 1u8 << (i % 8);
    }
}

// What the entries before one name first, and what they replace.
#[derive(Drop)]
struct Seen {
    listed: Set,
    replaced: Set,
}

impl Seen {
    // Before the first entry.
    fn nothing() -> Seen
        ensures { (a : Bytes) → Before a 0 result }
    {
        let listed = Set::empty();
        let replaced = Set::empty();
        Seen { listed, replaced }
    }

    // An entry more.
    fn put(&mut self, entry: Entry)
        ensures { (a : Bytes) (e : ℕ) → IsEntry a e entry → Before a e self.old → Before a (e + 1) self.new }
    {
        self.listed.put(entry.first);
        self.replaced.put(entry.replaced);
    }

    // 40. Tests are joined by `&` and `|`: each is cheap. Are the indexes of an entry in a list of so many scripts,
    // the first not listed before, and the replaced one listed?
    fn allows(&self, count: usize, entry: Entry) -> bool
        ensures { (l a : Bytes) (e : ℕ) → count ≡ script_count l → IsEntry a e entry → Before a e self.now
            → result ≡ ok40 l a e }
    {
        let none = entry.replaced == NO_SCRIPT;
        let older = (usize::from(entry.replaced) < count) & self.listed.has(entry.replaced);
        (usize::from(entry.first) < count) & (!self.listed.has(entry.first) & (none | older))
    }

    // 41. Is the replaced script replaced by no entry before?
    fn leaves(&self, entry: Entry) -> bool
        ensures { (a : Bytes) (e : ℕ) → IsEntry a e entry → Before a e self.now → result ≡ ok41 a e }
    {
        (entry.replaced == NO_SCRIPT) | !self.replaced.has(entry.replaced)
    }
}

// 42. Is the first script's type the same as the replaced one's, or below it?
fn is_usable(groups: &[u8], types: &[u8], scripts: &[u8], entry: Entry) -> bool
    requires typed { ListsTyped groups.now types.now scripts.now }
    requires within { IndexesListed (script_count scripts.now) entry }
    ensures { (a : Bytes) (e : ℕ) → IsEntry a e entry
        → result ≡ ok42 groups.now types.now scripts.now a e }
{
    if entry.replaced == NO_SCRIPT {
        return true;
    }
    let first = type_of(scripts, usize::from(entry.first));
    let replaced = type_of(scripts, usize::from(entry.replaced));
    let lower = types::part_from(types, first);
    let upper = types::part_from(types, replaced);
    subtyping::is_subtype(groups, lower, upper)
}

// Questions 40, 41 and 42 of entry e.
fn entry_check(
    groups: &[u8],
    types: &[u8],
    scripts: &[u8],
    amendments: &[u8],
    e: usize,
    seen: &Seen,
) -> Checked
    requires typed { ListsTyped groups.now types.now scripts.now }
    requires there { e < entry_count amendments.now }
    requires before { Before amendments.now e seen.now }
    ensures { answer_of result ≡ entry_check groups.now types.now scripts.now amendments.now e }
{
    let entry = entry_at(amendments, e);
    let allowed = seen.allows(script_count(scripts), entry);
    answer::ask(Question::Lists, e, allowed)?;
    answer::ask(Question::ReplacedOnce, e, seen.leaves(entry))?;
    let usable = is_usable(groups, types, scripts, entry);
    answer::ask(Question::AmendedType, e, usable)
}

// One entry after another.
fn entries_check(groups: &[u8], types: &[u8], scripts: &[u8], amendments: &[u8]) -> Checked
    requires { ListsTyped groups.now types.now scripts.now }
    ensures { answer_of result
        ≡ entries_check groups.now types.now scripts.now amendments.now (entry_count amendments.now) }
{
    let mut seen = Seen::nothing();
    for e in 0..entry_count(amendments) {
        entry_check(groups, types, scripts, amendments, e, &seen)?;
        seen.put(entry_at(amendments, e));
    }
    Ok(())
}

// 40 of the lengths: whole records, and at most 65,535 scripts?
fn lengths_check(scripts: &[u8], amendments: &[u8]) -> Checked
    ensures { answer_of result ≡ q40_lengths scripts.now amendments.now }
{
    let whole = (scripts.len() % LISTED_WIDTH == 0)
        & ((script_count(scripts) <= LISTED_LIMIT) & (amendments.len() % ENTRY_WIDTH == 0));
    answer::ask(Question::Lists, 0, whole)
}

// 25. Does each script name a type of the table?
#[tactic(auto, unfolding(rules::specs::InForce::ok25))]
fn question_25(types: &[u8], scripts: &[u8]) -> Checked
    ensures { answer_of result ≡ q25_scripts types.now scripts.now }
{
    let count = types::type_count(types);
    answer::each(Question::Given, script_count(scripts), |i| {
        type_of(scripts, i) < count
    })
}

/// The check of a studio's list of scripts and its list of amendments, of any bytes: questions 2 to 12 and 36 of the
/// tables, 40 of both lengths, 25 of each listed script, and then 40, 41 and 42 of each entry. The first refusal is
/// passed on.
pub fn lists_check(groups: &[u8], types: &[u8], scripts: &[u8], amendments: &[u8]) -> Checked
    ensures { answer_of result ≡ lists_check groups.now types.now scripts.now amendments.now }
{
    types_table::types_check(groups, types)?;
    lengths_check(scripts, amendments)?;
    question_25(types, scripts)?;
    entries_check(groups, types, scripts, amendments)
}

// The look-up begins with the entry that names the script first; an entry that replaces the newest script so far is
// the newest.
fn turned(newest: Option<u16>, index: u16, entry: Entry) -> Option<u16>
    ensures { (a : Bytes) (e : ℕ) → IsEntry a e entry → option_of result ≡ newest_after a index e (option_of newest) }
{
    match newest {
        None if entry.first == index => Some(index),
        None => None,
        Some(script) if entry.replaced == script => Some(entry.first),
        Some(script) => Some(script),
    }
}

// The newest script from this one, where an entry names it first. One pass: a replaced script is listed before.
fn newest(amendments: &[u8], index: u16) -> Option<u16>
    ensures { option_of result ≡ newest amendments.now index (entry_count amendments.now) }
{
    let mut script = None;
    for e in 0..entry_count(amendments) {
        script = turned(script, index, entry_at(amendments, e));
    }
    script
}

/// The index of the script in force from script `index`, or `NO_SCRIPT` where no entry names it first. Refused where
/// the lists fail their check. The index is looked at as it comes, before it is narrowed.
pub fn in_force(
    groups: &[u8],
    types: &[u8],
    scripts: &[u8],
    amendments: &[u8],
    index: u64,
) -> Result<u16, Refusal>
    ensures { answer_of result ≡ in_force groups.now types.now scripts.now amendments.now index }
{
    lists_check(groups, types, scripts, amendments)?;
    let Ok(index) = u16::try_from(index) else {
        return Ok(NO_SCRIPT);
    };
    Ok(newest(amendments, index).unwrap_or(NO_SCRIPT))
}
