//! What is written of two configurations.

use crate::numbers::number_at;
use compiler::Tables;
use difference_counts::Counts;
use gk_terms::TechPrefix;
use plan_difference::Sets;
use std::alloc::Global;
use std::marker::Model;

/// Two configurations, and the sets of digits that are written of them. A contract sees both and
/// which sets are listed and which have changed.
#[derive(Drop)]
pub(crate) struct Findings<'a> {
    /// The allocator for texts.
    pub(crate) alloc: Global,
    /// The old configuration.
    pub(crate) old: &'a Tables,
    /// The new configuration.
    pub(crate) new: &'a Tables,
    /// The technology prefixes of their joint group.
    pub(crate) shared: &'a [TechPrefix],
    /// The sets that are listed, of which those of one group stand together.
    pub(crate) listed: &'a Sets,
    /// How many digits each of these has.
    pub(crate) counts: &'a Counts,
    /// Those that have changed.
    pub(crate) changed: &'a Sets,
    /// How many digits these have together.
    pub(crate) total: u128,
}

impl<'a> Model for Findings<'a> {
    ghost use Rattle.difference_report.specs.Findings.{FoundParts, IsFound};

    ghost Value = { FoundParts };

    ghost view = { λ f. record {
      old = f.old.now.commands;
      new = f.new.now.commands;
      listed = f.listed.now;
      changed = f.changed.now;
    } };

    ghost invariant = { λ f. IsFound (record {
      old = f.old.now.commands;
      new = f.new.now.commands;
      listed = f.listed.now;
      changed = f.changed.now;
    }) f.shared.now f.counts.now f.total };
}

impl<'a> Findings<'a> {
    ghost use Rattle.std.specs.Prelude.{◌≡◌, IfSome, slice_get, sum};
    ghost use Rattle.std.specs.Map.{keys_of};
    ghost use Rattle.difference_counts.specs.Counted.{number_in, numbers_in};
    ghost use Rattle.plan_difference.specs.Order.{AreGrouped};
    ghost use Rattle.difference_report.specs.Headings.{shared_prefixes};

    /// The allocator for texts.
    pub(crate) fn alloc(&self) -> Global {
        self.alloc
    }

    /// The old configuration.
    pub(crate) fn old(&self) -> &'a Tables
        ensures { result.now.commands ≡ self.now.old }
    {
        self.old
    }

    /// The new configuration.
    pub(crate) fn new(&self) -> &'a Tables
        ensures { result.now.commands ≡ self.now.new }
    {
        self.new
    }

    /// The technology prefixes of their joint group.
    pub(crate) fn shared(&self) -> &'a [TechPrefix]
        ensures { result.now ≡ shared_prefixes self.now.old self.now.new }
    {
        self.shared
    }

    /// The sets that are listed. Those of one group stand together.
    pub(crate) fn listed(&self) -> &'a Sets
        ensures sets { result.now ≡ self.now.listed }
        ensures grouped { AreGrouped (keys_of self.now.listed) }
    {
        self.listed
    }

    /// How many digits the listed set at a place has.
    pub(crate) fn number_at(&self, place: usize) -> u128
        ensures { IfSome (slice_get self.now.listed place) (λ entry.
            result ≡ number_in self.now.old self.now.new entry.0) }
    {
        number_at(self.old, self.new, self.listed, self.counts, place)
    }

    /// The sets that have changed.
    pub(crate) fn changed(&self) -> &'a Sets
        ensures { result.now ≡ self.now.changed }
    {
        self.changed
    }

    /// How many digits these have together.
    pub(crate) fn total(&self) -> u128
        ensures { result ≡ sum (numbers_in self.now.old self.now.new self.now.changed) }
    {
        self.total
    }
}
