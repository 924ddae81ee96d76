//! The publisher of tables.

ghost use Rattle.std.specs.Prelude.{◌≡◌, ◌+◌, ◌<◌, ◌⊎◌, ◌^◌, [], ◌∷◌, ◌++◌, drop, length, nat_lt, IfOk, IfSome, IfErr, Err, Some, MatchBool};
ghost use Rattle.std.specs.Arc.{arc_value};
ghost use mathlib.Core.List.{IsPrefix};
ghost use Rattle.publisher.specs.declared.faults.NewFault.TheVariants.{BadPlaces};
ghost use Rattle.publisher.specs.declared.faults.ReaderFault.TheVariants.{NoPlace};
ghost use Rattle.publisher.specs.History.{draft_of, generations_in, confirmation_of, last_of};
ghost use Rattle.publisher.specs.Publications.{confirmed_by, list_of};

use crate::blanks::{Blank, Imprint};
use crate::entries::{Confirms, Drafts};
use crate::faults::{NewFault, NoMemory, ReaderFault};
use crate::fronts::{Front, Head};
use crate::publications::Publication;
use crate::readers::Reader;
use crate::showing::{Copies, Shown};
use crate::tellings::Told;
use compiler::Tables;
use core::mem::replace_with;
use gk_terms::Version;
use left_right::writer::Writer;
use std::alloc::Global;
use std::marker::Model;
use std::snapshot::Snapshot;
use std::sync::{Arc, Wait};

/// The greatest number of places for readers.
pub const MOST_PLACES: u32 = 32;

/// A history with so many entries takes no more publications: 2^61.
const MOST_ENTRIES: u64 = 1 << 61;

/// Puts tables in force, one version after another, for readers that never wait. It can't be let
/// go: it ends by `close`. A contract sees the list of generations.
pub struct Publisher<J: Imprint> {
    copies: Copies<J>,
    head: Head<J>,
    /// All entries of the history, the drafts of refused publications among them.
    newest: Front<J>,
    /// The entries up to the last one in force, which says that what is shown is in force.
    told: Front<J>,
    version: u32,
}

impl<J: Imprint> Model for Publisher<J> {
    ghost use Rattle.std.specs.Prelude.{◌≡◌, List, length};
    ghost use mathlib.Core.List.{IsPrefix};
    ghost use Rattle.gk_commands.specs.declared.commands.Command.{Command};
    ghost use Rattle.publisher.specs.History.{generations_in};
    ghost use Rattle.publisher.specs.Publications.{confirmed_by, list_of};

    ghost Value = { List (List Command) };

    ghost view = { λ p. generations_in p.told };

    ghost invariant = { λ p. (generations_in p.newest ≡ generations_in p.told) ×
        (list_of p.copies.desk.shown.value ≡ generations_in p.told) ×
        (p.version ≡ length (generations_in p.told)) ×
        (p.told ≡ confirmed_by p.copies.desk.shown.value) ×
        IsPrefix p.told p.newest };
}

impl<J: Imprint> Publisher<J> {
    /// A publisher of version 1, these tables, with so many places for readers, 1 to 32. The blank
    /// is the one by which `J` is picked. `BadPlaces` comes exactly for other numbers, and
    /// `NoMemory` if memory is refused. This project's profile.
    pub fn new(
        alloc: Global,
        blank: Blank,
        tables: Arc<Tables, Global>,
        places: u32,
    ) -> Result<Publisher<J>, NewFault>
        requires { blank ≡ J.book }
        ensures started { IfOk result (λ p. p ≡ (arc_value tables).commands ∷ []) }
        ensures places { IfErr result (λ fault.
            fault ≡ BadPlaces → (places ≡ 0) ⊎ (32 < places)) }
        ensures bad { (places ≡ 0) ⊎ (32 < places) → result ≡ Err BadPlaces }
    {
        if places == 0 {
            return Err(NewFault::BadPlaces);
        }
        if places > MOST_PLACES {
            return Err(NewFault::BadPlaces);
        }
        let about = Snapshot::of(&*tables);
        let (head, empty) = blank.named::<J>();
        let Some((drafted, first)) = draft(&head, &empty, 1, tables) else {
            return Err(NewFault::NoMemory);
        };
        let Some(told) = confirm(&head, &drafted, &about) else {
            return Err(NewFault::NoMemory);
        };
        let Ok(second) = first.again() else {
            return Err(NewFault::NoMemory);
        };
        let Ok(copies) = Writer::new(alloc, first, second, places as usize) else {
            return Err(NewFault::NoMemory);
        };
        Ok(Publisher {
            copies,
            head,
            newest: told.again(),
            told,
            version: 1,
        })
    }

    /// A reader, which has read nothing and was told of all publications. `NoPlace` if each place
    /// is taken, or if the table of places finds none for a reason of its own, as while readers
    /// come and go in other threads. This project's profile.
    pub fn reader(&mut self) -> Result<Reader<J>, ReaderFault>
        ensures same { self.new ≡ self.old }
        ensures list { IfOk result (λ reader. IsPrefix reader.list self.old) }
        ensures told { IfOk result (λ reader. reader.told ≡ self.old) }
        ensures fault { IfErr result (λ fault. fault ≡ NoPlace) }
    {
        let Ok(place) = self.copies.factory().reader() else {
            return Err(ReaderFault::NoPlace);
        };
        Ok(Reader::new(place, self.told.again()))
    }

    /// Puts these tables in force, and answers their version. It waits until no reader is inside
    /// a copy that it writes. `NoMemory` if memory is refused, or after 2^61 drafts and
    /// confirmations: then the version that was in force stays, no reader sees these tables, and
    /// the next publication has the number that this one would have had. This project's profile.
    pub fn publish<R: Wait>(
        &mut self,
        rt: &R,
        tables: Arc<Tables, Global>,
    ) -> Result<Version, NoMemory>
        requires room { length self.old < 4294967295 }
        ensures published { IfOk result (λ version.
            (self.new ≡ self.old ++ (arc_value tables).commands ∷ []) ×
            (version ≡ length self.new)) }
        ensures refused { IfErr result (λ _. self.new ≡ self.old) }
    {
        if !has_room(&self.newest) {
            return Err(NoMemory);
        }
        let version = self.version + 1;
        let about = Snapshot::of(&*tables);
        let Some((drafted, next)) = draft(&self.head, &self.newest, version, tables) else {
            return Err(NoMemory);
        };
        let is_shown = replace_with(&mut self.copies, (rt, next), |copies, asked| {
            show::<J, R>(copies, asked)
        });
        if !is_shown {
            self.newest = drafted;
            return Err(NoMemory);
        }
        let told = put_in_force(rt, &self.head, &drafted, &about);
        self.newest = told.again();
        self.told = told;
        self.version = version;
        Ok(Version::new(version))
    }

    /// What its readers learn, to read the version in force or a later one. It takes no memory.
    pub fn tell(&mut self) -> Told<J>
        ensures told { result ≡ self.old }
        ensures same { self.new ≡ self.old }
    {
        Told::new(self.told.again())
    }

    /// Ends it. Its readers are lost from then on, and what they have read stays theirs. It waits
    /// until no reader is inside a copy, and takes no memory.
    pub fn close<R: Wait>(self, rt: &R) {
        let Publisher {
            copies,
            head: _head,
            newest: _newest,
            told: _told,
            version: _,
        } = self;
        copies.take(rt);
    }
}

/// Whether the history takes another publication.
fn has_room<J: Imprint>(newest: &Front<J>) -> bool
    ensures { result ≡ nat_lt (length newest.now) 2305843009213693952 }
{
    newest.len() < MOST_ENTRIES
}

/// These tables as a draft at the end of the history, and as the publication that is to be shown.
fn draft<J: Imprint>(
    head: &Head<J>,
    newest: &Front<J>,
    version: u32,
    tables: Arc<Tables, Global>,
) -> Option<(Front<J>, Publication)>
    requires room { length newest.now < 2 ^ 61 }
    requires version { version ≡ length (generations_in newest.now) + 1 }
    ensures room { IfSome result (λ d. length d.0 < 2 ^ 62) }
    ensures kept { IfSome result (λ d. generations_in d.0 ≡ generations_in newest.now) }
    ensures drafted { IfSome result (λ d.
        last_of d.0 ≡ Some (draft_of (arc_value tables).commands)) }
    ensures goes_on { IfSome result (λ d. IsPrefix newest.now d.0) }
    ensures book { IfSome result (λ d. d.1.stem.seen.book ≡ J.book) }
    ensures list { IfSome result (λ d.
        list_of d.1 ≡ generations_in newest.now ++ (arc_value tables).commands ∷ []) }
    ensures confirmed { IfSome result (λ d.
        confirmed_by d.1 ≡ d.0 ++ confirmation_of (arc_value tables).commands ∷ []) }
{
    let about = Snapshot::of(&*tables);
    let Some(drafted) = newest.add::<Drafts>(head, &about) else {
        return None;
    };
    let next = Publication::new(version, tables, drafted.stem());
    Some((drafted, next))
}

/// Shows a publication to the readers, and says whether it is shown. It is not if memory is
/// refused.
fn show<J: Imprint, R: Wait>(copies: Copies<J>, asked: (&R, Publication)) -> (Copies<J>, bool)
    requires book { asked.1.stem.seen.book ≡ J.book }
    requires later { IsPrefix (list_of copies.desk.shown.value) (list_of asked.1) }
    ensures shown { MatchBool result.1
        (list_of result.0.desk.shown.value ≡ list_of asked.entry.1)
        (list_of result.0.desk.shown.value ≡ list_of copies.desk.shown.value) }
    ensures confirmed { MatchBool result.1
        (confirmed_by result.0.desk.shown.value ≡ confirmed_by asked.entry.1)
        (confirmed_by result.0.desk.shown.value ≡ confirmed_by copies.desk.shown.value) }
{
    let mut copies = copies;
    let (rt, next) = asked;
    let Ok(()) = copies.append(next) else {
        return (copies, false);
    };
    let (copies, published) = copies.publish_as::<Shown<J>, R>(rt);
    let Ok(()) = published else {
        return (copies, false);
    };
    (follow(copies, rt), true)
}

/// Has the other copy follow at once, so that the tables that were shown before are let go.
fn follow<J: Imprint, R: Wait>(copies: Copies<J>, rt: &R) -> Copies<J>
    requires book { copies.desk.shown.value.stem.seen.book ≡ J.book }
    requires none { drop copies.behind copies.log.items ≡ [] }
    ensures shown { list_of result.desk.shown.value ≡ list_of copies.desk.shown.value }
    ensures confirmed { confirmed_by result.desk.shown.value
        ≡ confirmed_by copies.desk.shown.value }
{
    match copies.publish_as::<Shown<J>, R>(rt) {
        (copies, Ok(())) => copies,
        (copies, Err(_)) => copies,
    }
}

/// The history with one more entry, which says that the last draft is in force.
fn confirm<J: Imprint>(
    head: &Head<J>,
    drafted: &Front<J>,
    tables: &Snapshot<Tables>,
) -> Option<Front<J>>
    requires room { length drafted.now < 2 ^ 62 }
    requires drafted { last_of drafted.now ≡ Some (draft_of tables.now.value.commands) }
    ensures list { IfSome result (λ front. generations_in front ≡
        generations_in drafted.now ++ tables.now.value.commands ∷ []) }
    ensures confirmed { IfSome result (λ front. front ≡
        drafted.now ++ confirmation_of tables.now.value.commands ∷ []) }
{
    let Some(front) = drafted.add::<Confirms>(head, tables) else {
        return None;
    };
    Some(front)
}

/// Says in the history that the last draft is in force. Nobody else adds to the history, so the
/// first try goes through.
fn put_in_force<J: Imprint, R: Wait>(
    rt: &R,
    head: &Head<J>,
    drafted: &Front<J>,
    tables: &Snapshot<Tables>,
) -> Front<J>
    requires room { length drafted.now < 2 ^ 62 }
    requires drafted { last_of drafted.now ≡ Some (draft_of tables.now.value.commands) }
    ensures list { generations_in result ≡
        generations_in drafted.now ++ tables.now.value.commands ∷ [] }
    ensures confirmed { result ≡ drafted.now ++ confirmation_of tables.now.value.commands ∷ [] }
{
    for _ in rt.forever() {
        if let Some(front) = confirm(head, drafted, tables) {
            return front;
        }
    }
    unreachable!()
}
