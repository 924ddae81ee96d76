//! Names in 24 bytes, for those that are kept in great numbers.

ghost use Rattle.std.specs.Prelude.{◌≡◌, ◌≤◌, length, nat_eq, IfOk, IsOk};
ghost use Rattle.std.specs.Cmp.Lexicographic.{pointwise};
ghost use Rattle.std.specs.Cmp.Rules.{comparing};
ghost use Rattle.std.proofs.Common.{rules};
ghost use Rattle.gk_terms.specs.Name.{IsName};

use crate::short_names::ShortName;
use gk_terms::Name;
use std::alloc::{AllocError, Global};
use std::fmt;
use std::marker::Model;
use std::mem::size_of;

/// A name that is kept: in place if it has at most 19 characters, and in a block of its own if it
/// has more. A contract sees the name.
#[derive(Drop)]
pub struct KeptName {
    held: HeldName,
}

// A `Name` takes 129 bytes, and nearly every one in a configuration is short.
const _: () = prove!(size_of::<KeptName>() == 24);

/// Where the name stands.
#[derive(Drop)]
enum HeldName {
    Short(ShortName),
    Long(Box<Name>),
}

impl Model for KeptName {
    ghost use Rattle.std.specs.Prelude.{ℕ, List};
    ghost use Rattle.gk_terms.specs.Name.{IsName};
    ghost use Rattle.short_texts.specs.KeptName.{held_name};

    ghost Value = { List ℕ };

    ghost view = { λ n. held_name n.held };

    ghost invariant = { λ n. IsName (held_name n.held) };
}

impl KeptName {
    /// The same name. Takes memory only for one of more than 19 characters.
    pub fn of(alloc: Global, name: &Name) -> Result<KeptName, AllocError>
        ensures same { IfOk result (λ kept. kept ≡ name.now) }
        ensures in_place { length name.now ≤ 19 → IsOk result }
    {
        // So it is known what a name is.
        let _text = name.as_bytes();
        let held = match ShortName::of(name) {
            Some(short) => HeldName::Short(short),
            None => HeldName::Long(Box::new(alloc, *name)?),
        };
        Ok(KeptName { held })
    }

    /// The name.
    pub fn name(&self) -> Name
        ensures { result ≡ self.now }
    {
        match &self.held {
            HeldName::Short(short) => short.name(),
            HeldName::Long(name) => name.copied(),
        }
    }

    /// The bytes of the name.
    pub fn as_bytes(&self) -> &[u8]
        ensures spells { result.now ≡ self.now }
        ensures name { IsName self.now }
    {
        match &self.held {
            HeldName::Short(short) => short.as_bytes(),
            HeldName::Long(name) => name.as_bytes(),
        }
    }
}

impl PartialEq for KeptName {
    ghost eq = { pointwise nat_eq };

    ghost laws = { Prim.search (comparing, rules) };

    fn eq(&self, other: &Self) -> bool {
        self.as_bytes() == other.as_bytes()
    }
}

impl Eq for KeptName {
    ghost laws = { Prim.search (comparing, rules) };
}

impl fmt::Debug for KeptName {
    fn fmt<W: fmt::Write>(&self, f: &mut fmt::Formatter<W>) -> fmt::Result {
        fmt::Debug::fmt(&self.name(), f)
    }
}
