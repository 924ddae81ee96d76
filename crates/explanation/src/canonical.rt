//! The commands that decide a routing, as canonical lines.

ghost use Rattle.std.specs.Prelude.{◌≡◌, ◌∷◌, ◌++◌, OnOk, flat_map};
ghost use Rattle.digit_patterns.specs.Pattern.{pattern_text};
ghost use Rattle.gk_commands.specs.declared.commands.Command.TheVariants as commands;
ghost use Rattle.gk_commands.specs.Printing.{default_words, further_words, gateway_words, hopoff_words};
ghost use Rattle.gk_commands.specs.TechnologyLine.{is_option_word};
ghost use Rattle.explanation.specs.Lists.{command_text, with_words};

use crate::text::Text;
use digit_patterns::Pattern;
use gk_commands::{GatewayPriority, KeptName, Names};
use gk_terms::TechPrefix;
use std::alloc::AllocError;

impl Text {
    /// Adds a `zone prefix` line, without its line feed.
    pub(crate) fn add_row_line(
        &mut self,
        zone: &KeptName,
        pattern: &Pattern,
        gateways: &Option<GatewayPriority>,
    ) -> Result<(), AllocError>
        ensures { OnOk result (self.new
            ≡ self.old ++ command_text (commands.ZonePrefix zone.now pattern.now gateways.now)) }
    {
        self.add(b"zone")?;
        self.word(b"prefix")?;
        self.word(zone.as_bytes())?;
        self.pattern(pattern)?;
        self.gateways(gateways)
    }

    /// Adds a `gw-type-prefix` line, without its line feed.
    pub(crate) fn add_technology_line(
        &mut self,
        prefix: &TechPrefix,
        hopoffs: &Names,
        is_default: bool,
    ) -> Result<(), AllocError>
        ensures { OnOk result (self.new
            ≡ self.old ++ command_text (commands.GwTypePrefix prefix.now hopoffs.now is_default)) }
    {
        self.add(b"gw-type-prefix")?;
        self.word(prefix.as_bytes())?;
        self.options(hopoffs.as_slice(), is_default)
    }

    /// Adds a pattern as a word.
    fn pattern(&mut self, pattern: &Pattern) -> Result<(), AllocError>
        ensures { OnOk result (self.new ≡ self.old ++ 32 ∷ pattern_text pattern.now) }
    {
        let shown = format!(in *self.allocator(); "{pattern}")?;
        self.word(shown.as_bytes())
    }

    /// Adds gateways with their priority, if they are named.
    fn gateways(&mut self, gateways: &Option<GatewayPriority>) -> Result<(), AllocError>
        ensures { OnOk result (self.new ≡ with_words self.old (gateway_words gateways.now)) }
    {
        match gateways {
            None => Ok(()),
            Some(GatewayPriority { priority, gateways }) => {
                self.word(b"gw-priority")?;
                self.add(b" ")?;
                self.number(u64::from(*priority))?;
                self.names(gateways.as_slice())
            }
        }
    }

    /// Adds each name as a word.
    fn names(&mut self, names: &[KeptName]) -> Result<(), AllocError>
        ensures { OnOk result (self.new ≡ with_words self.old names.now) }
    {
        for name in names {
            self.word(name.as_bytes())?;
        }
        Ok(())
    }

    /// Adds what is said of a technology prefix.
    #[tactic(auto, using(crate::proofs::WordLemmas::words_twice))]
    fn options(&mut self, hopoffs: &[KeptName], is_default: bool) -> Result<(), AllocError>
        ensures { OnOk result (self.new
            ≡ with_words self.old (hopoff_words hopoffs.now ++ default_words is_default)) }
    {
        self.hopoffs(hopoffs)?;
        self.default_word(is_default)
    }

    /// Adds the word for the default technology, if it is one.
    fn default_word(&mut self, is_default: bool) -> Result<(), AllocError>
        ensures { OnOk result (self.new ≡ with_words self.old (default_words is_default)) }
    {
        if is_default {
            self.word(b"default-technology")?;
        }
        Ok(())
    }

    /// Adds the hop-off zones, if there are some.
    fn hopoffs(&mut self, names: &[KeptName]) -> Result<(), AllocError>
        ensures { OnOk result (self.new ≡ with_words self.old (hopoff_words names.now)) }
    {
        match names {
            [] => Ok(()),
            [first, others @ ..] => {
                self.word(b"hopoff")?;
                self.word(first.as_bytes())?;
                self.further_hopoffs(others)
            }
        }
    }

    /// Adds further hop-off zones.
    fn further_hopoffs(&mut self, names: &[KeptName]) -> Result<(), AllocError>
        ensures { OnOk result (self.new ≡ with_words self.old (flat_map further_words names.now)) }
    {
        for name in names {
            self.further_hopoff(name)?;
        }
        Ok(())
    }

    /// Adds a further hop-off zone: one that would be read as an option after the word `hopoff`.
    fn further_hopoff(&mut self, name: &KeptName) -> Result<(), AllocError>
        ensures { OnOk result (self.new ≡ with_words self.old (further_words name.now)) }
    {
        if is_option_word(name.as_bytes()) {
            self.word(b"hopoff")?;
        }
        self.word(name.as_bytes())
    }
}

/// Whether the word would be read as an option after the name of a hop-off zone.
fn is_option_word(word: &[u8]) -> bool
    ensures { result ≡ is_option_word word.now }
{
    word == b"hopoff".as_slice()
        || word == b"seq".as_slice()
        || word == b"blast".as_slice()
        || word == b"default-technology".as_slice()
        || word == b"gw".as_slice()
}
