// Same, below or neither: two walks over two types, which call each other at functions.

#![tactic(auto)]

ghost use Rattle.std.specs.Prelude.{◌≡◌, ◌&&◌, nat_eq};
ghost use Rattle.calculus.specs.Types.{Ty, top};
ghost use Rattle.calculus.specs.Subtyping.{subtype, below, above};
ghost use Rattle.rules.specs.Groups.{properties_of};
ghost use Rattle.rules.specs.Comparison.{equal_properties};
ghost use Rattle.lattice.specs.Said.{said_property};
ghost use Rattle.types.specs.Held.{Held, Starts, kind_of_type};
ghost use Rattle.subtyping.specs.Compared.{relation_of};

use types::Kind;

/// What a walk over two related types finds.
#[derive(Clone, Copy, Debug, PartialEq, Eq)]
pub struct Related {
    /// Are they the same?
    pub same: bool,
    /// How many records each of them has: related types have as many.
    pub records: usize,
}

// Are the first records of one kind, and is the first one's property at or below the other's?
fn first_below(groups: &[u8], lower: &[u8], upper: &[u8]) -> bool
    requires first { Starts lower.now }
    requires second { Starts upper.now }
    ensures { (s t : Ty) → Held lower.now s → Held upper.now t
        → result ≡ (nat_eq (kind_of_type s) (kind_of_type t) && (properties_of groups.now).le (top s) (top t)) }
{
    types::of_one_kind(lower, upper)
        && types::property(lower).at_or_below(groups, types::property(upper))
}

// Have the first records, of one kind, the same property?
fn first_same(lower: &[u8], upper: &[u8]) -> bool
    requires first { Starts lower.now }
    requires second { Starts upper.now }
    ensures { (s t : Ty) → Held lower.now s → Held upper.now t
        → result ≡ equal_properties (top s) (top t) }
{
    types::property(lower) == types::property(upper)
}

/// Is the type that `lower` starts with at or below that of `upper`, and is it the same? `None` where it isn't at or
/// below. A function's left sides are walked the other way round. Related types have as many records, so what the
/// walk of the left sides counts says where both right sides start.
#[cycle(at_or_above_at_or_below)]
pub fn at_or_below(groups: &[u8], lower: &[u8], upper: &[u8]) -> Option<Related>
    requires first { Starts lower.now }
    requires second { Starts upper.now }
    ensures { (s t : Ty) → Held lower.now s → Held upper.now t
        → result ≡ relation_of (properties_of groups.now) below s t }
{
    if !first_below(groups, lower, upper) {
        return None;
    }
    let first = first_same(lower, upper);
    let lower_kind = types::kind_of(lower);
    if !lower_kind.has_sides() {
        return Some(Related {
            same: first,
            records: 1,
        });
    }
    let left = match lower_kind {
        Kind::Function => at_or_above(groups, types::left_side(lower), types::left_side(upper)),
        _ => at_or_below(groups, types::left_side(lower), types::left_side(upper)),
    }?;
    let lower_right = types::right_side(lower, left.records);
    let upper_right = types::right_side(upper, left.records);
    let right = at_or_below(groups, lower_right, upper_right)?;
    Some(Related {
        same: first && (left.same && right.same),
        records: 1 + (left.records + right.records),
    })
}

/// Is the type that `upper` starts with at or above that of `lower`, and is it the same? `None` where it isn't at or
/// above.
#[cycle(at_or_above_at_or_below)]
pub fn at_or_above(groups: &[u8], upper: &[u8], lower: &[u8]) -> Option<Related>
    requires first { Starts upper.now }
    requires second { Starts lower.now }
    ensures { (s t : Ty) → Held upper.now s → Held lower.now t
        → result ≡ relation_of (properties_of groups.now) above s t }
{
    if !first_below(groups, lower, upper) {
        return None;
    }
    let first = first_same(upper, lower);
    let upper_kind = types::kind_of(upper);
    if !upper_kind.has_sides() {
        return Some(Related {
            same: first,
            records: 1,
        });
    }
    let left = match upper_kind {
        Kind::Function => at_or_below(groups, types::left_side(upper), types::left_side(lower)),
        _ => at_or_above(groups, types::left_side(upper), types::left_side(lower)),
    }?;
    let upper_right = types::right_side(upper, left.records);
    let lower_right = types::right_side(lower, left.records);
    let right = at_or_above(groups, upper_right, lower_right)?;
    Some(Related {
        same: first && (left.same && right.same),
        records: 1 + (left.records + right.records),
    })
}

/// Is the type that `lower` starts with at or below that of `upper`, be it the same or not?
pub fn is_subtype(groups: &[u8], lower: &[u8], upper: &[u8]) -> bool
    requires first { Starts lower.now }
    requires second { Starts upper.now }
    ensures { (s t : Ty) → Held lower.now s → Held upper.now t
        → result ≡ subtype (properties_of groups.now) below s t }
{
    at_or_below(groups, lower, upper).is_some()
}
