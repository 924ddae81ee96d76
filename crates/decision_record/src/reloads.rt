//! The reloads of a record.

ghost use Rattle.std.specs.Prelude.{◌≡◌, ◌<◌, ◌≤◌, ◌+◌, ◌++◌, ◌∷◌, [], Some, None, IfSome, length, slice_get, option_map, OnOk, OnErr};
ghost use Rattle.std.specs.Arc.{arc_value};
ghost use Rattle.pieces.specs.declared.list.TheConstants.{PIECE_ITEMS};
ghost use Rattle.decision_record.specs.History.{plain_entry, commands_reloaded};
ghost use Rattle.decision_record.specs.Reloads.{ArePlaced, IsPlaced, IsReload, KeepsTexts, commands_past, commands_last, plain_past, plain_last};

use crate::entries::{Entry, ReloadedCommands};
use crate::known_lines::KnownLines;
use compiler::Tables;
use gk_commands::Commands;
use gk_terms::Version;
use pieces::Pieces;
use std::alloc::{AllocError, Global};
use std::marker::Model;
use std::mem;
use std::sync::Arc;

/// A configuration that was in force: the place of the lines that said its commands among the known
/// ones; the commands, if their lines were not kept, because memory ran out as they were read; or
/// its tables, if somebody else still had them as another one was put in force.
#[derive(Drop)]
pub enum PastConfiguration {
    Lines { place: usize },
    Commands(Commands),
    Tables(Arc<Tables>),
}

/// The entry of a reload that another one followed.
#[derive(Drop)]
pub struct PastReload {
    configuration: PastConfiguration,
    version: Version,
}

/// The entry of the last reload, whose tables are in force.
#[derive(Drop)]
pub struct LastReload {
    pub tables: Arc<Tables>,
    pub version: Version,
}

/// The entries of reloads in order. A contract sees their values, the commands that the last one
/// put in force, and for how many further ones there is at least room without memory.
///
/// `last` is the last one, and `past` are those before it. As one more follows, the tables of the
/// last one are let go and the lines of its commands stay, so that the record of a long run holds
/// no tables but those in force and the opening ones. The lines stand in `known`, where those that
/// come again are kept once.
#[derive(Drop)]
pub struct Reloads {
    past: Pieces<PastReload>,
    last: Option<LastReload>,
    known: KnownLines,
}

impl Model for Reloads {
    ghost use Rattle.std.specs.Prelude.{min, option_map};
    ghost use Rattle.decision_record.specs.Reloads.{ArePlaced, ReloadsParts, reloads_told, commands_last};

    ghost Value = { ReloadsParts };

    ghost view = { λ r. record {
      entries = reloads_told r.known.items r.past.items r.last;
      last = option_map commands_last r.last;
      room = min r.past.room r.known.room;
    } };

    ghost invariant = { λ r. ArePlaced r.known.items r.past.items };
}

impl PastConfiguration {
    /// That of these tables.
    fn of(tables: Arc<Tables>, known: &mut KnownLines) -> PastConfiguration
        requires { 1 ≤ known.old.room }
        ensures said { commands_past known.new.items result ≡ (arc_value tables).commands }
        ensures placed { IsPlaced known.new.items result }
        ensures kept { KeepsTexts known.old known.new }
    {
        match Arc::try_unwrap(tables) {
            Ok(tables) => PastConfiguration::of_commands(tables.into_commands(), known),
            Err(tables) => PastConfiguration::Tables(tables),
        }
    }

    /// That of these commands: their lines, if they were kept.
    fn of_commands(commands: Commands, known: &mut KnownLines) -> PastConfiguration
        requires { 1 ≤ known.old.room }
        ensures said { commands_past known.new.items result ≡ commands.commands }
        ensures placed { IsPlaced known.new.items result }
        ensures kept { KeepsTexts known.old known.new }
    {
        match commands.into_lines() {
            Ok(lines) => PastConfiguration::Lines {
                place: known.put(lines),
            },
            Err(commands) => PastConfiguration::Commands(commands),
        }
    }

    /// Its commands.
    fn commands<'a>(&'a self, known: &'a KnownLines) -> ReloadedCommands<'a>
        requires { IsPlaced known.now.items self.now }
        ensures { commands_reloaded result ≡ commands_past known.now.items self.now }
    {
        match self {
            PastConfiguration::Lines { place } => ReloadedCommands::Lines(known.get(*place)),
            PastConfiguration::Commands(commands) => ReloadedCommands::Commands(commands),
            PastConfiguration::Tables(tables) => ReloadedCommands::Commands(tables.commands()),
        }
    }
}

impl PastReload {
    /// The entry, with its commands lent.
    fn lent<'a>(&'a self, known: &'a KnownLines) -> Entry<'a>
        requires { IsPlaced known.now.items self.now.configuration }
        ensures { plain_entry result ≡ plain_past known.now.items self.now }
    {
        Entry::Reload {
            commands: self.configuration.commands(known),
            version: self.version,
        }
    }
}

impl LastReload {
    /// The entry, with its commands lent.
    fn lent(&self) -> Entry<'_>
        ensures { plain_entry result ≡ plain_last self.now }
    {
        Entry::Reload {
            commands: ReloadedCommands::Commands(self.tables.commands()),
            version: self.version,
        }
    }

    /// The same after another reload.
    fn past(self, known: &mut KnownLines) -> PastReload
        requires { 1 ≤ known.old.room }
        ensures said { plain_past known.new.items result ≡ plain_last self }
        ensures placed { IsPlaced known.new.items result.configuration }
        ensures kept { KeepsTexts known.old known.new }
    {
        let LastReload { tables, version } = self;
        PastReload {
            configuration: PastConfiguration::of(tables, known),
            version,
        }
    }
}

impl Reloads {
    /// No reloads, and no room. It takes no memory.
    pub fn new(alloc: Global) -> Reloads
        ensures { result ≡ record { entries = []; last = None; room = 0 } }
    {
        Reloads {
            past: Pieces::new(alloc),
            last: None,
            known: KnownLines::new(alloc),
        }
    }

    /// How many reloads there are.
    pub fn len(&self) -> usize
        ensures value { result ≡ length self.now.entries }
        ensures reloads { (place : _) → IfSome (slice_get self.now.entries place) IsReload }
    {
        match &self.last {
            Some(_) => self.past.len() + 1,
            None => self.past.len(),
        }
    }

    /// The entry of the reload at this place, from 0, if there is one.
    pub fn get(&self, place: usize) -> Option<Entry<'_>>
        ensures { option_map plain_entry result ≡ slice_get self.now.entries place }
    {
        if place < self.past.len() {
            return past_at(&self.past, &self.known, place);
        }
        if place > self.past.len() {
            return None;
        }
        match &self.last {
            Some(reload) => Some(reload.lent()),
            None => None,
        }
    }

    /// The tables that the last reload put in force.
    pub fn tables(&self) -> Option<&Tables>
        ensures { option_map (λ tables. tables.now.commands) result ≡ self.now.last }
    {
        match &self.last {
            Some(reload) => Some(&reload.tables),
            None => None,
        }
    }

    /// Makes room for this many further reloads. If memory runs out, the entries stay; one of the
    /// two lists may have got room.
    pub fn reserve(&mut self, places: usize) -> Result<(), AllocError>
        requires near { places ≤ self.old.room + PIECE_ITEMS }
        ensures entries { self.new.entries ≡ self.old.entries }
        ensures last { self.new.last ≡ self.old.last }
        ensures room { self.old.room ≤ self.new.room }
        ensures ok { OnOk result (places ≤ self.new.room) }
        ensures err { OnErr result (self.old.room < places) }
    {
        self.known.reserve(places)?;
        self.past.reserve(places)
    }

    /// Puts a reload at the end, in room that was reserved: the last one. It takes no memory.
    pub fn push(&mut self, reload: LastReload)
        requires { 1 ≤ self.old.room }
        ensures entries { self.new.entries ≡ self.old.entries ++ plain_last reload ∷ [] }
        ensures last { self.new.last ≡ Some (commands_last reload) }
        ensures room { self.old.room ≤ self.new.room + 1 }
        ensures most { self.new.room ≤ self.old.room }
    {
        if let Some(before) = mem::replace(&mut self.last, Some(reload)) {
            self.past.push(before.past(&mut self.known));
        }
    }
}

/// The entry of the past reload at this place.
fn past_at<'a>(
    past: &'a Pieces<PastReload>,
    known: &'a KnownLines,
    place: usize,
) -> Option<Entry<'a>>
    requires { ArePlaced known.now.items past.now.items }
    ensures { option_map plain_entry result ≡ option_map (plain_past known.now.items)
        (slice_get past.now.items place) }
{
    match past.get(place) {
        Some(reload) => Some(reload.lent(known)),
        None => None,
    }
}
