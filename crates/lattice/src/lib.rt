// The lattice of groups over a table of rows: readers and indirect readers, creators and indirect creators, their
// order, their join and their meet, and the properties made of them.

#![tactic(auto)]

ghost use Rattle.std.specs.Prelude.{◌≡◌, ℕ, ◌≤◌, ◌<◌, nat_lt, length};
ghost use Rattle.calculus.specs.Numbers.{of_both};
ghost use Rattle.rules.specs.Answer.{byte};
ghost use Rattle.rules.specs.Limits.{group_limit};
ghost use Rattle.rules.specs.Groups.{rows, row, bit, leq, join, below_both, meet, properties_of};
ghost use Rattle.lattice.specs.Digits.{BitsOfWords};
ghost use Rattle.lattice.specs.Said.{said_property, said_influence};

/// A group, in one of the four places that it may have in a property: a type for each, so that none is handed over in
/// another's place.
pub trait Group: Copy {
    ghost number: { Self → ℕ };

    /// The group of this number: its row in the groups table, and its bit in every row.
    fn numbered(value: u8) -> Self
        ensures { number result ≡ value };

    /// The number of the group.
    fn number(self) -> u8
        ensures { result ≡ number self };

    /// Is it in a table of so many groups?
    fn is_among(self, count: usize) -> bool
        ensures { result ≡ nat_lt (number self) count }
    {
        usize::from(self.number()) < count
    }

    /// self ⊑ other, in the order of this groups table.
    fn at_or_below(self, groups: &[u8], other: Self) -> bool
        ensures { result ≡ leq groups.now (number self) (number other) }
    {
        leq(groups, self.number(), other.number())
    }

    /// self ⊔ other: the lowest group at or above both; 0 where they have none in common.
    fn join(self, groups: &[u8], other: Self) -> Self
        ensures { number result ≡ join groups.now (number self) (number other) }
    {
        Self::numbered(join(groups, self.number(), other.number()))
    }
}

/// The group r: who may read an object.
#[derive(Clone, Copy, Debug, PartialEq, Eq)]
pub struct Reader(pub u8);

/// The group ir: who may be influenced by it.
#[derive(Clone, Copy, Debug, PartialEq, Eq)]
pub struct Indirect(pub u8);

/// The group c: who made it.
#[derive(Clone, Copy, Debug, PartialEq, Eq)]
pub struct Creator(pub u8);

/// The group ic: who had an influence on it.
#[derive(Clone, Copy, Debug, PartialEq, Eq)]
pub struct IndirectCreator(pub u8);

impl Group for Reader {
    ghost number = { λ g. g.0 };

    fn numbered(value: u8) -> Self {
        Reader(value)
    }

    fn number(self) -> u8 {
        self.0
    }
}

impl Group for Indirect {
    ghost number = { λ g. g.0 };

    fn numbered(value: u8) -> Self {
        Indirect(value)
    }

    fn number(self) -> u8 {
        self.0
    }
}

impl Group for Creator {
    ghost number = { λ g. g.0 };

    fn numbered(value: u8) -> Self {
        Creator(value)
    }

    fn number(self) -> u8 {
        self.0
    }
}

impl Group for IndirectCreator {
    ghost number = { λ g. g.0 };

    fn numbered(value: u8) -> Self {
        IndirectCreator(value)
    }

    fn number(self) -> u8 {
        self.0
    }
}

/// The property κ of an object or a type: its four groups.
#[derive(Clone, Copy, Debug, PartialEq, Eq)]
pub struct Property {
    /// Who may read it.
    pub r: Reader,
    /// Who may be influenced by it.
    pub ir: Indirect,
    /// Who made it.
    pub c: Creator,
    /// Who had an influence on it.
    pub ic: IndirectCreator,
}

/// An influence (ir, ic): what a reading leaves on its result, and what a protect carries.
#[derive(Clone, Copy, Debug, PartialEq, Eq)]
pub struct Influence {
    pub ir: Indirect,
    pub ic: IndirectCreator,
}

/// The bytes of a row of a groups table: a 32-bit word, lowest byte first.
pub const ROW_WIDTH: usize = 4;

/// The most groups of a table: a row has a bit for each.
pub const GROUP_LIMIT: usize = 32;

// Byte i, and 0 past the end, so that order, join and meet are total in the table's length.
fn byte(groups: &[u8], i: usize) -> u8
    ensures { result ≡ byte groups.now i }
{
    groups.get(i).copied().unwrap_or(0)
}

/// How many whole rows a groups table has: a group is in the table where its number is below.
pub fn row_count(groups: &[u8]) -> usize
    ensures { result ≡ rows groups.now }
{
    groups.len() / ROW_WIDTH
}

// The row of a group of the table: its bytes are all there, so that they are read as one word.
fn whole_row(groups: &[u8], g: usize) -> u32
    requires { g < rows groups.now }
    ensures { result ≡ row groups.now g }
{
    let i = ROW_WIDTH * g;
    u32::from_le_bytes([groups[i], groups[i + 1], groups[i + 2], groups[i + 3]])
}

/// The row of a group, a word of which bit h is set where the group is at or below group h. A row cut short is read
/// as far as it goes, and one past the table is 0.
pub fn row(groups: &[u8], group: usize) -> u32
    ensures { result ≡ row groups.now group }
{
    if group < row_count(groups) {
        return whole_row(groups, group);
    }
    if row_count(groups) < group {
        return 0;
    }
    let i = ROW_WIDTH * group;
    u32::from_le_bytes([
        byte(groups, i),
        byte(groups, i + 1),
        byte(groups, i + 2),
        byte(groups, i + 3),
    ])
}

/// Is bit `group` of a row set? Division by a power of two and remainder, with no branch: the same instructions for
/// every row and every group. A row has no bit past the last; there the remainder, which is 0 or 1, is held against
/// more than 1.
pub fn bit(word: u32, group: usize) -> bool
    ensures { result ≡ bit word group }
{
    let power = 1u32 << (group % GROUP_LIMIT);
    (word / power % 2) as usize == 1 + group / GROUP_LIMIT
}

/// A word is made of its bits, and they are its binary digits, however they are taken.
#[tactic(auto, using(crate::proofs::Digits::bits_of_words))]
pub fn bits_are_digits()
    ensures { BitsOfWords }
{}

// g ⊑ h
fn leq(groups: &[u8], g: u8, h: u8) -> bool
    ensures { result ≡ leq groups.now g h }
{
    bit(row(groups, usize::from(g)), usize::from(h))
}

// g ⊔ h, the lowest bit set in both rows; 0 where they have none in common.
fn join(groups: &[u8], g: u8, h: u8) -> u8
    ensures { result ≡ join groups.now g h }
{
    let both = row(groups, usize::from(g)) & row(groups, usize::from(h));
    if both == 0 {
        return 0;
    }
    both.trailing_zeros() as u8
}

// How many rows a search over the groups goes through: past the table they are 0. A row cut short is one of them.
fn rows_to_search(groups: &[u8]) -> usize
    ensures within { result ≤ group_limit }
    ensures zeros { (k : ℕ) → result ≤ k → k < group_limit → 0 ≡ row groups.now k }
{
    (row_count(groups) + 1).min(GROUP_LIMIT)
}

// k ⊑ g and k ⊑ h. Most groups aren't below the first, so that the second is rarely asked.
fn below_both(groups: &[u8], k: usize, g: u8, h: u8) -> bool
    ensures { result ≡ below_both groups.now g h k }
{
    let word = row(groups, k);
    bit(word, usize::from(g)) && bit(word, usize::from(h))
}

// g ⊓ h, the highest group ⊑ both; 0 where there is none. The groups below a group stand in its column, so this costs
// a pass down the table, at most 32 rows, where a join costs two.
fn meet(groups: &[u8], g: u8, h: u8) -> u8
    ensures { result ≡ meet groups.now g h }
{
    for k in (0..rows_to_search(groups)).rev() {
        if below_both(groups, k, g, h) {
            return k as u8;
        }
    }
    0
}

// g ⊓ by and h ⊓ also. One search serves both where they are the same, as a group and the indirect one beside it
// mostly are.
fn meet_both(groups: &[u8], g: u8, by: u8, h: u8, also: u8) -> (u8, u8)
    ensures first { result.0 ≡ meet groups.now g by }
    ensures second { result.1 ≡ meet groups.now h also }
{
    let first = meet(groups, g, by);
    if (g == h) & (by == also) {
        return (first, first);
    }
    (first, meet(groups, h, also))
}

impl Reader {
    /// r ⊔ ir: what • makes of the reader.
    pub fn joined(self, groups: &[u8], by: Indirect) -> Reader
        ensures { result.0 ≡ join groups.now self.0 by.0 }
    {
        Reader(join(groups, self.0, by.0))
    }
}

impl Indirect {
    /// ir ⊑ r.
    pub fn within(self, groups: &[u8], reader: Reader) -> bool
        ensures { result ≡ leq groups.now self.0 reader.0 }
    {
        leq(groups, self.0, reader.0)
    }
}

impl Creator {
    /// c ⊑ ic.
    pub fn within(self, groups: &[u8], indirect: IndirectCreator) -> bool
        ensures { result ≡ leq groups.now self.0 indirect.0 }
    {
        leq(groups, self.0, indirect.0)
    }
}

impl IndirectCreator {
    /// ic ⊑ c.
    pub fn within(self, groups: &[u8], creator: Creator) -> bool
        ensures { result ≡ leq groups.now self.0 creator.0 }
    {
        leq(groups, self.0, creator.0)
    }

    /// ic ⊓ r, where the group r reads.
    pub fn read_by(self, groups: &[u8], reader: Reader) -> IndirectCreator
        ensures { result.0 ≡ meet groups.now self.0 reader.0 }
    {
        IndirectCreator(meet(groups, self.0, reader.0))
    }
}

impl Property {
    /// κ ≤ κ': is `self` at or below `property`? Readers rise with the order, and creators fall.
    pub fn at_or_below(self, groups: &[u8], property: Property) -> bool
        ensures { result ≡ (properties_of groups.now).le (said_property self) (said_property property) }
    {
        self.r.at_or_below(groups, property.r)
            && (self.ir.at_or_below(groups, property.ir)
                && (property.c.at_or_below(groups, self.c)
                    && property.ic.at_or_below(groups, self.ic)))
    }

    /// κ ⊔ κ': the least property at or above both.
    pub fn join(self, groups: &[u8], property: Property) -> Property
        ensures { said_property result
            ≡ (properties_of groups.now).join (said_property self) (said_property property) }
    {
        let r = self.r.join(groups, property.r);
        let ir = self.ir.join(groups, property.ir);
        let (c, ic) = meet_both(groups, self.c.0, property.c.0, self.ic.0, property.ic.0);
        let c = Creator(c);
        let ic = IndirectCreator(ic);
        Property { r, ir, c, ic }
    }

    /// κ ⊓ κ': the greatest property at or below both.
    pub fn meet(self, groups: &[u8], property: Property) -> Property
        ensures { said_property result
            ≡ (properties_of groups.now).meet (said_property self) (said_property property) }
    {
        let read = meet_both(groups, self.r.0, property.r.0, self.ir.0, property.ir.0);
        let r = Reader(read.0);
        let ir = Indirect(read.1);
        let c = self.c.join(groups, property.c);
        let ic = self.ic.join(groups, property.ic);
        Property { r, ir, c, ic }
    }

    /// κ • (ir, ic): the property after an influence. ir is joined into r and ir, and ic met into c and ic.
    pub fn raised(self, groups: &[u8], by: Influence) -> Property
        ensures { said_property result ≡ (properties_of groups.now).raise (said_property self) (said_influence by) }
    {
        let r = self.r.joined(groups, by.ir);
        let ir = self.ir.join(groups, by.ir);
        let made = meet_both(groups, self.c.0, by.ic.0, self.ic.0, by.ic.0);
        let c = Creator(made.0);
        let ic = IndirectCreator(made.1);
        Property { r, ir, c, ic }
    }

    /// What a reading by this group leaves on its result: ir, and ic ⊓ the group.
    pub fn influence(self, groups: &[u8], reader: Reader) -> Influence
        ensures { said_influence result ≡ (properties_of groups.now).influence (said_property self) reader.0 }
    {
        let ir = self.ir;
        let ic = self.ic.read_by(groups, reader);
        Influence { ir, ic }
    }

    /// What reckoning by this group gives of a left operand of this property and a right one: nobody's readers and
    /// the group as creators, raised by the left's influence and then by the right's. So neither operand's r and c
    /// enter.
    pub fn reckoned_with(self, groups: &[u8], right: Property, reader: Reader) -> Property
        ensures { said_property result
            ≡ of_both (properties_of groups.now) reader.0 (said_property self) (said_property right) }
    {
        let r = Reader(0);
        let ir = Indirect(0);
        let c = Creator(reader.0);
        let ic = IndirectCreator(reader.0);
        let first = self.influence(groups, reader);
        let second = right.influence(groups, reader);
        Property { r, ir, c, ic }
            .raised(groups, first)
            .raised(groups, second)
    }

    /// May a result of this property be read through a function of property `through`, called as the group `caller`?
    /// Question 23 of a recursion.
    pub fn absorbed_by(self, groups: &[u8], through: Property, caller: Reader) -> bool
        ensures { result ≡ (properties_of groups.now).absorbs (said_property through) caller.0 (said_property self) }
    {
        through.ir.at_or_below(groups, self.ir)
            && self.c.within(groups, through.ic.read_by(groups, caller))
    }
}
