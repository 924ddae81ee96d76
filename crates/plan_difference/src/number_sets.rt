//! Sets of dialled digits.

use digit_patterns::Pattern;
use gk_terms::TechPrefix;

/// The dialled digits for which each of two configurations finds the same technology prefix and
/// uses the same zone prefix.
///
/// Digits for which both find the same technology prefix, or none, and in neither hop off with it,
/// are in one group, the joint one: their sets name no technology prefix, and are sets of what
/// follows it. All others name the prefixes that are found.
#[derive(Clone, Copy, PartialEq, Eq, Hash)]
pub struct NumberSet {
    /// The technology prefix that the old configuration finds. None if it finds none, and in the
    /// joint group, which is the one where this and the next are both none.
    pub old_technology: Option<TechPrefix>,
    /// The one that the new configuration finds. None if it finds none, and in the joint group.
    pub new_technology: Option<TechPrefix>,
    /// The zone prefix that the old configuration uses. None if no zone prefix matches, or the
    /// technology prefix hops off.
    pub old_row: Option<Pattern>,
    /// The one that the new configuration uses. None in the same cases.
    pub new_row: Option<Pattern>,
}

/// The technology prefixes that two configurations find for the digits of a set. None for both is
/// the joint group.
#[derive(Clone, Copy, PartialEq, Eq)]
pub struct Group {
    /// What the old one finds. None if it finds none, and in the joint group.
    pub old: Option<TechPrefix>,
    /// What the new one finds. None if it finds none, and in the joint group.
    pub new: Option<TechPrefix>,
}

impl NumberSet {
    ghost use Rattle.std.specs.Prelude.{◌≡◌};
    ghost use Rattle.plan_difference.specs.Entries.{group_of};

    /// The group that the set belongs to.
    pub fn group(&self) -> Group
        ensures { result ≡ group_of self.now }
    {
        Group {
            old: self.old_technology,
            new: self.new_technology,
        }
    }
}

impl Group {
    ghost use Rattle.std.specs.Prelude.{◌≡◌, ◌↔◌, true};

    /// Whether it is this one.
    pub fn is(&self, other: &Group) -> bool
        ensures { (result ≡ true) ↔ (self.now ≡ other.now) }
    {
        *self == *other
    }
}
