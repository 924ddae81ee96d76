//! The steps of a routing, as an explanation has them.

use bandwidth::Over;
use digit_patterns::Pattern;
use gk_terms::{Dialled, Name, TechPrefix};
use rulings::Route;

/// What decides the zone to which digits are sent.
#[derive(Clone, Copy, Debug, PartialEq, Eq)]
pub enum Way {
    /// Their technology prefix, which has hop-off zones.
    HopOff,
    /// This pattern, the longest that matches them.
    Matched(Pattern),
    /// No pattern matches them.
    Unmatched,
}

/// The zone to which digits are sent.
#[derive(Clone, Copy, Debug, PartialEq, Eq)]
pub enum Reached {
    /// None: no pattern matches, and the configuration rejects such digits.
    Nowhere,
    /// A zone of another gatekeeper.
    Remote(Name),
    /// A local zone.
    Local(Name),
}

/// Which endpoint of a local zone is looked for.
#[derive(Clone, Copy, Debug, PartialEq, Eq)]
pub enum Search {
    /// None is: the digits are sent to another gatekeeper, or nowhere.
    Nobody,
    /// A gateway for the technology prefix of the digits.
    Technology(TechPrefix),
    /// The endpoint of this ID, which has the digits as an alias.
    Alias(Name),
    /// A gateway for the default technology, since no endpoint has the digits as an alias.
    Default(TechPrefix),
    /// None is left: no endpoint has the digits as an alias, and no default technology is set.
    NoDefault,
}

/// A gateway of the zone with the technology prefix that is looked for.
#[derive(Clone, Copy, Debug, PartialEq, Eq)]
pub struct Candidate {
    /// Its ID.
    pub id: Name,
    /// Its priority for the pattern that was used, 0 to 10; 5 if none was. One of priority 0 is
    /// never chosen.
    pub priority: u8,
}

/// A limit that a call is held against.
#[derive(Clone, Copy, Debug, PartialEq, Eq)]
pub struct HeldLimit {
    /// What a call that would pass it is refused for.
    pub over: Over,
    /// The limit, in units of 100 bit/s.
    pub units: u64,
}

/// Why dialled digits go where they go: what each step of their routing found.
#[derive(Drop)]
pub struct Explanation {
    /// The zone of the caller.
    pub caller: Name,
    /// What was dialled.
    pub digits: Dialled,
    /// Whether the registered endpoints are known. If not, the steps are those of none, and a
    /// technology prefix that a gateway gives may lead elsewhere.
    pub known: bool,
    /// The technology prefix of the digits.
    pub technology: Option<TechPrefix>,
    /// The IDs of the gateways from which that prefix is learned, in order of registration.
    pub givers: Vec<Name>,
    /// What decides the target zone.
    pub way: Way,
    /// The target zone.
    pub reached: Reached,
    /// Which endpoint of it is looked for.
    pub search: Search,
    /// The gateways among which one is chosen, the first choice first.
    pub gateways: Vec<Candidate>,
    /// Where the digits lead, or why nowhere.
    pub route: Route,
    /// The limits that a call is held against, in the order in which they are tried.
    pub limits: Vec<HeldLimit>,
}
