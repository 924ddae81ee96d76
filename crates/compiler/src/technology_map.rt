//! The declared technology prefixes by their text.

ghost use Rattle.std.specs.Prelude.{◌≡◌, [], List, ℕ, true, OnOk, OnErr, Some, option_map, bytes_eq, if◌then◌else◌};
ghost use Rattle.gk_terms.specs.TechPrefix.{is_tech_prefix};
ghost use Rattle.compiler.specs.TablesIndex.{technology_at};

use crate::plans::ZoneNo;
use gk_terms::TechPrefix;
use indexmap::IndexMap;
use std::alloc::{AllocError, Global};
use std::marker::Model;

/// The declared prefixes, each with the number of the hop-off zone that is picked for it, and the
/// length of the longest of them, so that no longer text is looked up. A contract sees the prefixes
/// with their zones.
#[derive(Drop)]
pub(crate) struct TechnologyMap {
    hopoffs: IndexMap<TechPrefix, Option<ZoneNo>>,
    longest: usize,
}

impl Model for TechnologyMap {
    ghost use Rattle.compiler.specs.TablesIndex.{Technologies, AreWithin};

    ghost Value = { Technologies };

    ghost view = { λ t. t.hopoffs.entries };

    ghost invariant = { λ t. AreWithin t.longest t.hopoffs.entries };
}

impl TechnologyMap {
    /// No prefix.
    pub(crate) fn new(alloc: Global) -> TechnologyMap
        ensures { result ≡ [] }
    {
        TechnologyMap {
            hopoffs: IndexMap::new(alloc),
            longest: 0,
        }
    }

    /// The hop-off zone of a prefix, if it is there.
    pub(crate) fn get(&self, prefix: &TechPrefix) -> Option<Option<ZoneNo>>
        ensures { result ≡ technology_at self.now prefix.now }
    {
        self.hopoffs.get(prefix).copied()
    }

    /// What is there of a text as a prefix.
    pub(crate) fn declared(&self, text: &[u8]) -> Option<(TechPrefix, Option<ZoneNo>)>
        requires { is_tech_prefix text.now ≡ true }
        ensures { result ≡ option_map (λ hopoff. (text.now, hopoff))
            (technology_at self.now text.now) }
    {
        if text.len() > self.longest {
            return None;
        }
        let prefix = TechPrefix::read(text).ok()?;
        let hopoff = self.hopoffs.get(&prefix)?;
        Some((prefix, *hopoff))
    }

    /// Gives a prefix this hop-off zone, or none.
    pub(crate) fn insert(
        &mut self,
        prefix: &TechPrefix,
        hopoff: Option<ZoneNo>,
    ) -> Result<(), AllocError>
        ensures { OnOk result ((other : List ℕ) → technology_at self.new other
            ≡ (if bytes_eq prefix.now other then Some hopoff else technology_at self.old other)) }
    {
        let longest = self.longest.max(prefix.as_bytes().len());
        put(&mut self.hopoffs, prefix, hopoff)?;
        self.longest = longest;
        Ok(())
    }
}

/// Gives a prefix this hop-off zone, or none.
fn put(
    hopoffs: &mut IndexMap<TechPrefix, Option<ZoneNo>>,
    prefix: &TechPrefix,
    hopoff: Option<ZoneNo>,
) -> Result<(), AllocError>
    ensures changed { OnOk result ((other : List ℕ) → technology_at hopoffs.new.entries other
        ≡ (if bytes_eq prefix.now other then Some hopoff
        else technology_at hopoffs.old.entries other)) }
    ensures same { OnErr result (hopoffs.new.entries ≡ hopoffs.old.entries) }
{
    hopoffs.insert(*prefix, hopoff)?;
    Ok(())
}
