//! What of two configurations goes on from a front of dialled characters.

ghost use Rattle.std.specs.Prelude.{◌≡◌, ◌≤◌, ◌∷◌, ◌++◌, ◌||◌, [], IfOk, false};
ghost use Rattle.compiler.specs.Technology.{found_length};
ghost use Rattle.plan_difference.specs.Sets.{is_joint};
ghost use Rattle.difference_counts.specs.Ahead.{AreAt, AreEnds, HasPatternsOn, IsAhead, IsWhole, has_next};

use crate::ahead::Ahead;
use crate::characters::{CHARACTER_COUNT, CHARACTERS};
use crate::technologies::is_joint;
use crate::walk::Walk;
use gk_terms::Dialled;
use std::alloc::AllocError;

/// What of two configurations is ahead of a front of dialled characters.
#[derive(Drop)]
pub(crate) struct Ways {
    pub(crate) old: Ahead,
    pub(crate) new: Ahead,
}

impl Ways {
    /// Whether both have found the same technology prefix, or none, and digits with it hop off in
    /// neither.
    pub(crate) fn is_joint(&self, walk: &Walk) -> bool
        ensures { result ≡ is_joint walk.now.old.tables.now.commands
            walk.now.new.tables.now.commands self.now.old.technology self.now.new.technology }
    {
        is_joint(
            walk.old.tables,
            walk.new.tables,
            &self.old.technology,
            &self.new.technology,
        )
    }

    /// What is ahead of the front with a character after it.
    pub(crate) fn next(
        &self,
        walk: &Walk,
        front: &[u8],
        character: u8,
        longer: &Dialled,
    ) -> Result<Ways, AllocError>
        requires longer { longer.now ≡ front.now ++ character ∷ [] }
        requires old { IsWhole walk.now.old.tables.now.commands walk.now.old.patterns.now }
        requires new { IsWhole walk.now.new.tables.now.commands walk.now.new.patterns.now }
        requires old_ahead { IsAhead walk.now.old.tables.now.commands front.now
            self.now.old.technology self.now.old.prefixes.items }
        requires new_ahead { IsAhead walk.now.new.tables.now.commands front.now
            self.now.new.technology self.now.new.prefixes.items }
        requires old_patterns { is_joint walk.now.old.tables.now.commands
            walk.now.new.tables.now.commands self.now.old.technology self.now.new.technology
            ≡ false → HasPatternsOn walk.now.old.tables.now.commands front.now
            self.now.old.technology self.now.old.patterns.items }
        requires new_patterns { is_joint walk.now.old.tables.now.commands
            walk.now.new.tables.now.commands self.now.old.technology self.now.new.technology
            ≡ false → HasPatternsOn walk.now.new.tables.now.commands front.now
            self.now.new.technology self.now.new.patterns.items }
        ensures { IfOk result (λ next. AreAt walk.now.old.tables.now.commands
            walk.now.new.tables.now.commands longer.now
            next.old.technology next.old.prefixes.items next.old.patterns.items
            next.new.technology next.new.prefixes.items next.new.patterns.items) }
    {
        let wanted_before = !self.is_joint(walk);
        let old_technology = walk.old.tables.declared(longer);
        let new_technology = walk.new.tables.declared(longer);
        let wanted = !is_joint(
            walk.old.tables,
            walk.new.tables,
            &old_technology,
            &new_technology,
        );
        let old = self.old.next(
            walk.alloc,
            &walk.old,
            front,
            character,
            longer,
            old_technology,
            wanted_before,
            wanted,
        )?;
        let new = self.new.next(
            walk.alloc,
            &walk.new,
            front,
            character,
            longer,
            new_technology,
            wanted_before,
            wanted,
        )?;
        Ok(Ways { old, new })
    }

    /// Of each character, whether nothing of either configuration goes on with it, after a front of
    /// so many.
    pub(crate) fn ends(&self, count: usize) -> [bool; CHARACTER_COUNT]
        requires old { found_length self.now.old.technology ≤ count }
        requires new { found_length self.now.new.technology ≤ count }
        ensures { AreEnds (λ character. has_next self.now.old.technology
            self.now.old.prefixes.items self.now.old.patterns.items count character
            || has_next self.now.new.technology self.now.new.prefixes.items
            self.now.new.patterns.items count character) result }
    {
        let mut ends = [false; CHARACTER_COUNT];
        for number in 0..CHARACTER_COUNT {
            ends[number] = !self.goes_on(count, CHARACTERS[number]);
        }
        ends
    }

    /// Whether anything of either configuration goes on with a character, after a front of so many.
    fn goes_on(&self, count: usize, character: u8) -> bool
        requires old { found_length self.now.old.technology ≤ count }
        requires new { found_length self.now.new.technology ≤ count }
        ensures { result ≡ (has_next self.now.old.technology self.now.old.prefixes.items
            self.now.old.patterns.items count character
            || has_next self.now.new.technology self.now.new.prefixes.items
            self.now.new.patterns.items count character) }
    {
        self.old.has_next(count, character) || self.new.has_next(count, character)
    }
}
