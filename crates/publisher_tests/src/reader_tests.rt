//! Places that are given back, a reader that is told nothing, and tables that are let go.

ghost use Rattle.std.specs.Prelude.{◌≡◌, ◌+◌, ◌<◌, ◌≤◌, length};

use crate::tests::{TO_ONE, both, reader_of, tables_of, zone_of};
use compiler::Tables;
use publisher::{Blank, Imprint, Publisher, Reader, ReaderFault};
use std::alloc::Global;
use std::marker::Brand;
use std::process::Abort;
use std::sync::{Arc, Wait};
use std::test::Fail;

/// How many readers were made, and why no more.
type Made = (usize, Option<ReaderFault>);

#[test]
fn as_many_readers_as_places(rt: HostRuntime) -> Result<(), Fail> {
    let first = tables_of(&rt, rt.alloc(), TO_ONE)?;
    let one = made_twice::<Brand, _>(&rt, rt.alloc(), Blank::new(), first, 1);
    assert_made(&rt, one, 1);
    let first = tables_of(&rt, rt.alloc(), TO_ONE)?;
    let most = made_twice::<Brand, _>(&rt, rt.alloc(), Blank::new(), first, 32);
    assert_made(&rt, most, 32);
    Ok(())
}

/// So many were made both times, since there was no further place.
fn assert_made(rt: &impl Abort, made: (Made, Made), readers: usize) {
    let all = (readers, Some(ReaderFault::NoPlace));
    assert!(rt; made == (all, all));
}

/// How many readers are made, and how many once those are let go.
fn made_twice<J: Imprint, R: Wait + Abort>(
    rt: &R,
    alloc: Global,
    blank: Blank,
    tables: Arc<Tables, Global>,
    places: u32,
) -> (Made, Made)
    requires { blank ≡ J.book }
{
    let Ok(mut publisher) = Publisher::<J>::new(alloc, blank, tables, places) else {
        panic!(rt; "refused");
    };
    let before = readers_made(alloc, &mut publisher);
    let after = readers_made(alloc, &mut publisher);
    publisher.close(rt);
    (before, after)
}

/// Makes readers, 40 at most, until one is refused. Then they are let go.
fn readers_made<J: Imprint>(alloc: Global, publisher: &mut Publisher<J>) -> Made {
    let mut readers: Vec<Reader<J>> = Vec::new(alloc);
    for _ in 0..40 {
        match publisher.reader() {
            Ok(reader) => {
                if readers.push(reader).is_err() {
                    break;
                }
            }
            Err(fault) => return (readers.len(), Some(fault)),
        }
    }
    (readers.len(), None)
}

/// How many own the tables of version 1, the test among them: when it is opened, once version 2 is
/// published, and once version 3 is. The publisher is alive.
type Owners = (usize, usize, usize);

#[test]
fn old_tables_are_let_go_beside_a_reader_that_is_told_nothing(rt: HostRuntime) -> Result<(), Fail> {
    let tables = both(&rt, rt.alloc())?;
    let (owners, read) = read_untold::<Brand, _>(&rt, rt.alloc(), Blank::new(), &tables);
    assert!(rt; owners == (3, 1, 1) && read == Some((51, 2)));
    Ok(())
}

/// Publishes 50 versions. How many owned the first tables, and what a reader reads that was told of
/// none of them.
fn read_untold<J: Imprint, R: Wait + Abort>(
    rt: &R,
    alloc: Global,
    blank: Blank,
    tables: &(Arc<Tables, Global>, Arc<Tables, Global>),
) -> (Owners, Option<(u32, u32)>)
    requires { blank ≡ J.book }
{
    let Ok(first) = Arc::try_clone(&tables.0) else {
        panic!(rt; "too many owners");
    };
    let Ok(mut publisher) = Publisher::<J>::new(alloc, blank, first, 1) else {
        panic!(rt; "refused");
    };
    let mut reader = reader_of(rt, &mut publisher);
    let owners = owners_after_two(rt, &mut publisher, tables);
    let is_last = is_published_on(rt, &mut publisher, &tables.1, 51);
    let read = zone_of(rt, &mut reader);
    publisher.close(rt);
    assert!(rt; is_last);
    (owners, read)
}

/// Publishes versions 2 and 3.
fn owners_after_two<J: Imprint, R: Wait + Abort>(
    rt: &R,
    publisher: &mut Publisher<J>,
    tables: &(Arc<Tables, Global>, Arc<Tables, Global>),
) -> Owners
    requires { length publisher.old < 10 }
    ensures { length publisher.new ≤ length publisher.old + 2 }
{
    let opened = Arc::strong_count(&tables.0);
    let second = is_published(rt, publisher, &tables.1, 2);
    let once = Arc::strong_count(&tables.0);
    let third = is_published(rt, publisher, &tables.1, 3);
    let twice = Arc::strong_count(&tables.0);
    assert!(rt; second && third);
    (opened, once, twice)
}

/// Publishes these tables as versions 4 to this one, 60 at most, and says whether they have these
/// numbers.
fn is_published_on<J: Imprint, R: Wait>(
    rt: &R,
    publisher: &mut Publisher<J>,
    tables: &Arc<Tables, Global>,
    last: u32,
) -> bool
    requires few { length publisher.old < 20 }
    requires last { last < 60 }
{
    for version in 4..last + 1 {
        if !is_published(rt, publisher, tables, version) {
            return false;
        }
    }
    true
}

/// Publishes these tables, and says whether they have this number.
fn is_published<J: Imprint, R: Wait>(
    rt: &R,
    publisher: &mut Publisher<J>,
    tables: &Arc<Tables, Global>,
    version: u32,
) -> bool
    requires { length publisher.old < 100 }
    ensures { length publisher.new ≤ length publisher.old + 1 }
{
    let Ok(copy) = Arc::try_clone(tables) else {
        return false;
    };
    match publisher.publish(rt, copy) {
        Ok(published) => published.value() == version,
        Err(_) => false,
    }
}
