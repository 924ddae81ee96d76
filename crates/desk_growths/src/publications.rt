//! A publisher: its opening, and a publication that its reader sees or does not see.

ghost use Rattle.std.specs.Prelude.{◌≡◌, ◌+◌, ◌<◌, ◌≤◌, length};

use compiler::Tables;
use growth_logs::{Log, shared_tables, texts};
use publisher::{Blank, Imprint, NewFault, Publisher, Reader};
use std::alloc::Global;
use std::marker::Brand;
use std::sync::{Arc, Wait};

/// Opens a publisher, if need be twice, and publishes other tables.
pub fn go_through<R: Wait>(rt: &R, alloc: Global, other: &Arc<Tables>, log: &mut Log) {
    let Some(tables) = shared_tables(alloc, texts::ZONES, log) else {
        return log.fault(b"compile");
    };
    let Ok(copy) = Arc::try_clone(&tables) else {
        return log.fault(b"try_clone");
    };
    if !is_opened(rt, alloc, copy, other, log) && !is_opened(rt, alloc, tables, other, log) {
        log.fault(b"Publisher::new");
    }
}

/// Whether a publisher of these tables is opened, with a history of its own.
fn is_opened<R: Wait>(
    rt: &R,
    alloc: Global,
    tables: Arc<Tables>,
    other: &Arc<Tables>,
    log: &mut Log,
) -> bool {
    is_opened_as::<Brand, R>(rt, alloc, Blank::new(), tables, other, log)
}

/// Whether a publisher of these tables is opened. Then the other ones are published.
fn is_opened_as<J: Imprint, R: Wait>(
    rt: &R,
    alloc: Global,
    blank: Blank,
    tables: Arc<Tables>,
    other: &Arc<Tables>,
    log: &mut Log,
) -> bool
    requires { blank ≡ J.book }
{
    match Publisher::<J>::new(alloc, blank, tables, 1) {
        Ok(mut publisher) => {
            publish_to_reader(rt, &mut publisher, other, log);
            publisher.close(rt);
            true
        }
        Err(fault) => {
            log.refused(b"Publisher::new", fault == NewFault::NoMemory);
            false
        }
    }
}

/// Publishes other tables, and says which version a reader sees.
fn publish_to_reader<J: Imprint, R: Wait>(
    rt: &R,
    publisher: &mut Publisher<J>,
    other: &Arc<Tables>,
    log: &mut Log,
)
    requires { length publisher.old < 10 }
{
    let Ok(mut reader) = publisher.reader() else {
        return log.fault(b"Publisher::reader");
    };
    if !is_published(rt, publisher, other) {
        log.lacked(b"publish");
        if version_seen(publisher, &mut reader) != Some(1) || !is_published(rt, publisher, other) {
            log.fault(b"publish");
        }
    }
    match version_seen(publisher, &mut reader) {
        Some(version) => log.count(b"publish", version as usize),
        None => log.fault(b"Reader::read"),
    }
}

/// Publishes other tables. Whether they are published.
fn is_published<J: Imprint, R: Wait>(
    rt: &R,
    publisher: &mut Publisher<J>,
    other: &Arc<Tables>,
) -> bool
    requires { length publisher.old < 20 }
    ensures { length publisher.new ≤ length publisher.old + 1 }
{
    match Arc::try_clone(other) {
        Ok(copy) => publisher.publish(rt, copy).is_ok(),
        Err(_) => false,
    }
}

/// The version that a reader sees once it is told.
fn version_seen<J: Imprint>(publisher: &mut Publisher<J>, reader: &mut Reader<J>) -> Option<u32>
    ensures { publisher.new ≡ publisher.old }
{
    reader.learn(publisher.tell());
    match reader.read() {
        Ok((version, _tables)) => Some(version.value()),
        Err(_) => None,
    }
}
