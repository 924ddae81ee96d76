//! Names, as many as a line has.

ghost use Rattle.std.specs.Prelude.{◌≡◌, [], ◌∷◌, ◌++◌, nat_eq, IfOk};
ghost use Rattle.std.specs.Cmp.Lexicographic.{pointwise};
ghost use Rattle.std.specs.Cmp.Rules.{comparing};
ghost use Rattle.std.proofs.Common.{rules};

use gk_terms::Name;
use short_texts::KeptName;
use std::alloc::{AllocError, Global};
use std::marker::Model;

/// Names in the order of their line. A contract sees them as a list.
#[derive(Debug, Drop)]
pub struct Names {
    names: Vec<KeptName>,
}

impl Model for Names {
    ghost use Rattle.std.specs.Prelude.{ℕ, List};

    ghost Value = { List (List ℕ) };

    ghost view = { λ n. n.names.items };
}

impl Names {
    /// No names. Takes no memory.
    pub fn new(alloc: Global) -> Names
        ensures { result ≡ [] }
    {
        Names {
            names: Vec::new(alloc),
        }
    }

    /// With one more name after them. `AllocError` if memory is refused for it: then the names are
    /// gone.
    pub fn with(mut self, name: Name) -> Result<Names, AllocError>
        ensures { IfOk result (λ names. names ≡ self ++ name ∷ []) }
    {
        let name = KeptName::of(*self.names.allocator(), &name)?;
        self.names.push(name)?;
        Ok(self)
    }

    /// The names as a slice.
    pub fn as_slice(&self) -> &[KeptName]
        ensures { result.now ≡ self.now }
    {
        &self.names
    }
}

impl PartialEq for Names {
    ghost eq = { pointwise (pointwise nat_eq) };

    ghost laws = { Prim.search (comparing, rules) };

    fn eq(&self, other: &Self) -> bool {
        self.as_slice() == other.as_slice()
    }
}

impl Eq for Names {
    ghost laws = { Prim.search (comparing, rules) };
}
