//! The text of an explanation.

ghost use Rattle.std.specs.Prelude.{◌≡◌, ◌++◌, IfOk, OnOk, codes};
ghost use Rattle.explanation.specs.Telling as Spec;

use crate::lists;
use crate::others::others;
use crate::steps::{Explanation, Reached, Search, Way};
use crate::text::Text;
use crate::values::{
    after, gateways_value, is_open, may_be_held, name_of, no_alias_value, rejects_unknown,
    route_value, technology_value, unmatched_value,
};
use compiler::Tables;
use gk_commands::Command;
use gk_terms::{Dialled, TechPrefix};
use std::alloc::{AllocError, Global};

impl Explanation {
    /// The text of the explanation, a line for each step that is taken, in the order of the flow.
    /// The tables are to be those under which it was made. `AllocError` if memory runs out.
    pub fn text(&self, alloc: Global, tables: &Tables) -> Result<Text, AllocError>
        ensures { IfOk result (λ text.
            text ≡ Spec.explanation_text tables.now.commands self.now) }
    {
        let commands = tables.commands().as_slice();
        let mut text = Text::new(alloc);
        text.step(b"caller", self.caller.as_bytes())?;
        text.add_technology(alloc, commands, self)?;
        text.add_way(alloc, commands, self)?;
        text.add_zone(&self.reached)?;
        text.add_search(alloc, commands, self)?;
        text.add_route(alloc, self)?;
        text.add_limits(alloc, self)?;
        Ok(text)
    }
}

impl Text {
    /// Adds a step: its name and its value.
    fn step(&mut self, name: &[u8], value: &[u8]) -> Result<(), AllocError>
        ensures { OnOk result (self.new ≡ self.old ++ Spec.step_line name.now value.now) }
    {
        self.add(name)?;
        self.add(b": ")?;
        self.add(value)?;
        self.add(b"\n")
    }

    /// The same, unless there is nothing to say.
    fn step_if_any(&mut self, name: &[u8], value: &[u8]) -> Result<(), AllocError>
        ensures { OnOk result (self.new ≡ self.old ++ Spec.step_if_any name.now value.now) }
    {
        match value {
            [] => Ok(()),
            [_, ..] => self.step(name, value),
        }
    }

    /// Adds the step of the technology prefix.
    fn add_technology(
        &mut self,
        alloc: Global,
        commands: &[Command],
        said: &Explanation,
    ) -> Result<(), AllocError>
        ensures { OnOk result (self.new ≡ self.old
            ++ Spec.step_line (codes "technology prefix") (Spec.technology_value commands.now
            said.now.known said.now.givers.items said.now.technology)) }
    {
        let value = technology_value(alloc, commands, said)?;
        self.technology_step(value.as_bytes())
    }

    /// Adds the step of the technology prefix, with this value.
    fn technology_step(&mut self, value: &[u8]) -> Result<(), AllocError>
        ensures { OnOk result (self.new
            ≡ self.old ++ Spec.step_line (codes "technology prefix") value.now) }
    {
        self.step(b"technology prefix", value)
    }

    /// Adds the step of the default technology, with this value.
    fn default_step(&mut self, value: &[u8]) -> Result<(), AllocError>
        ensures { OnOk result (self.new
            ≡ self.old ++ Spec.step_line (codes "default technology") value.now) }
    {
        self.step(b"default technology", value)
    }

    /// Adds the steps by which the target zone is found.
    fn add_way(
        &mut self,
        alloc: Global,
        commands: &[Command],
        said: &Explanation,
    ) -> Result<(), AllocError>
        ensures { OnOk result (self.new ≡ self.old ++ Spec.way_lines commands.now said.now.digits
            said.now.technology (Spec.name_of said.now.reached) said.now.way) }
    {
        self.add_way_steps(alloc, commands, said)?;
        self.add_others(alloc, commands, said, name_of(&said.reached))
    }

    /// The same without the zones that were not picked.
    fn add_way_steps(
        &mut self,
        alloc: Global,
        commands: &[Command],
        said: &Explanation,
    ) -> Result<(), AllocError>
        ensures { OnOk result (self.new ≡ self.old ++ Spec.way_steps commands.now said.now.digits
            said.now.technology (Spec.name_of said.now.reached) said.now.way) }
    {
        match &said.way {
            Way::HopOff => self.step(b"hop-off zone", name_of(&said.reached)),
            Way::Matched(pattern) => {
                self.add_rest(alloc, &said.digits, &said.technology)?;
                let lines = lists::rows(alloc, commands, pattern, name_of(&said.reached))?;
                self.step(b"pattern", lines.as_bytes())
            }
            Way::Unmatched => {
                self.add_rest(alloc, &said.digits, &said.technology)?;
                self.step(b"pattern", unmatched_value(rejects_unknown(commands)))
            }
        }
    }

    /// Adds the digits after the technology prefix, if there is one.
    fn add_rest(
        &mut self,
        alloc: Global,
        digits: &Dialled,
        technology: &Option<TechPrefix>,
    ) -> Result<(), AllocError>
        ensures { OnOk result (self.new ≡ self.old
            ++ Spec.rest_line digits.now technology.now) }
    {
        match technology {
            Some(prefix) => {
                let mut rest = Text::new(alloc);
                rest.add(after(digits.as_bytes(), prefix.as_bytes().len()))?;
                self.step(b"digits left", rest.or_none()?.as_bytes())
            }
            None => Ok(()),
        }
    }

    /// Adds the zones that were named and not picked, if there are some.
    fn add_others(
        &mut self,
        alloc: Global,
        commands: &[Command],
        said: &Explanation,
        picked: &[u8],
    ) -> Result<(), AllocError>
        ensures { OnOk result (self.new ≡ self.old ++ Spec.others_line commands.now
            said.now.technology said.now.way picked.now) }
    {
        let list = others(alloc, commands, &said.technology, &said.way, picked)?;
        self.step_if_any(b"not picked", list.as_bytes())
    }

    /// Adds the target zone, if there is one.
    fn add_zone(&mut self, reached: &Reached) -> Result<(), AllocError>
        ensures { OnOk result (self.new ≡ self.old ++ Spec.zone_line reached.now) }
    {
        match reached {
            Reached::Nowhere => Ok(()),
            Reached::Remote(zone) => {
                self.add(b"zone: ")?;
                self.add(zone.as_bytes())?;
                self.add(b", remote\n")
            }
            Reached::Local(zone) => {
                self.add(b"zone: ")?;
                self.add(zone.as_bytes())?;
                self.add(b", local\n")
            }
        }
    }

    /// Adds the steps by which an endpoint is looked for.
    fn add_search(
        &mut self,
        alloc: Global,
        commands: &[Command],
        said: &Explanation,
    ) -> Result<(), AllocError>
        ensures { OnOk result (self.new
            ≡ self.old ++ Spec.search_lines commands.now said.now said.now.search) }
    {
        match &said.search {
            Search::Nobody => Ok(()),
            Search::Technology(prefix) => self.add_gateways(alloc, said, prefix),
            Search::Alias(id) => self.step(b"alias", id.as_bytes()),
            Search::Default(prefix) => {
                self.add_no_alias(alloc, said)?;
                let line = lists::default_line(alloc, commands)?;
                self.default_step(line.as_bytes())?;
                self.add_gateways(alloc, said, prefix)
            }
            Search::NoDefault => {
                self.add_no_alias(alloc, said)?;
                self.default_step(b"none")
            }
        }
    }

    /// Adds that no endpoint has the digits as an alias; or, if none is known, which one is looked
    /// for.
    fn add_no_alias(&mut self, alloc: Global, said: &Explanation) -> Result<(), AllocError>
        ensures { OnOk result (self.new
            ≡ self.old ++ Spec.step_line (codes "alias") (Spec.no_alias_value said.now)) }
    {
        let value = no_alias_value(alloc, said)?;
        self.step(b"alias", value.as_bytes())
    }

    /// Adds the gateways among which one is chosen; or, if no endpoint is known, which ones are
    /// looked for.
    fn add_gateways(
        &mut self,
        alloc: Global,
        said: &Explanation,
        prefix: &TechPrefix,
    ) -> Result<(), AllocError>
        ensures { OnOk result (self.new ≡ self.old
            ++ Spec.step_line (codes "gateways") (Spec.gateways_value said.now prefix.now)) }
    {
        let value = gateways_value(alloc, said, prefix)?;
        self.step(b"gateways", value.as_bytes())
    }

    /// Adds the route; or, if no endpoint is known, what it is by the configuration alone.
    fn add_route(&mut self, alloc: Global, said: &Explanation) -> Result<(), AllocError>
        ensures { OnOk result (self.new
            ≡ self.old ++ Spec.step_line (codes "route") (Spec.route_value said.now)) }
    {
        let value = route_value(alloc, said)?;
        self.step(b"route", value.as_bytes())
    }

    /// Adds the limits, if there is a destination, or an endpoint that is not known may be one.
    fn add_limits(&mut self, alloc: Global, said: &Explanation) -> Result<(), AllocError>
        ensures { OnOk result (self.new ≡ self.old ++ Spec.limits_line said.now) }
    {
        if may_be_held(is_open(said.known, &said.reached), &said.route) {
            let list = lists::limits(alloc, said.limits.as_slice())?.or_none()?;
            self.step(b"limits", list.as_bytes())?;
        }
        Ok(())
    }
}
