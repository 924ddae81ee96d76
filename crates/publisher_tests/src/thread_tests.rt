//! Readers in threads of their own, beside a publisher.

ghost use Rattle.std.specs.Prelude.{◌≡◌, ◌+◌, ◌<◌, ◌≤◌, length};

use crate::tests::to;
use command_reader::read;
use compiler::Tables;
use gk_terms::Dialled;
use publisher::{Blank, Imprint, Publisher, Reader, Told};
use std::alloc::Global;
use std::marker::Brand;
use std::process::Abort;
use std::sync::atomic::{AtomicU64, Ordering};
use std::sync::{Arc, Mutex, Wait};
use std::test::Fail;
use std::thread::{Threads, join};

/// The last version of the long run.
const LAST: u32 = 4097;

/// What the publisher told last, and its version.
#[derive(Drop)]
struct Letter<J: Imprint> {
    version: u32,
    told: Told<J>,
}

/// Where each of four readers finds what it was told, the version that all were told of, and whether
/// all is published.
#[derive(Drop)]
struct Posts<J: Imprint> {
    first: Mutex<Option<Letter<J>>>,
    second: Mutex<Option<Letter<J>>>,
    third: Mutex<Option<Letter<J>>>,
    fourth: Mutex<Option<Letter<J>>>,
    version: AtomicU64,
    over: AtomicU64,
}

impl<J: Imprint> Posts<J> {
    /// Nothing was told yet.
    fn new() -> Posts<J> {
        Posts {
            first: Mutex::new(None),
            second: Mutex::new(None),
            third: Mutex::new(None),
            fourth: Mutex::new(None),
            version: AtomicU64::new(1),
            over: AtomicU64::new(0),
        }
    }
}

#[test]
fn readers_beside_4096_publications(rt: HostRuntime) -> Result<(), Fail> {
    let digits = Dialled::read(b"12")?;
    let first = tables_of_version(rt.alloc(), 1).ok_or("no memory")?;
    let (published, read) = read_beside::<Brand, _>(&rt, rt.alloc(), Blank::new(), first, &digits);
    assert!(rt; published == LAST && read == [Some(LAST); 4]);
    Ok(())
}

/// Publishes 4,096 versions beside four readers. The last version, and what each reader read last:
/// none if it saw something wrong.
fn read_beside<J: Imprint + Send + Sync, R: Threads + Wait + Abort + Sync>(
    rt: &R,
    alloc: Global,
    blank: Blank,
    first: Arc<Tables, Global>,
    digits: &Dialled,
) -> (u32, [Option<u32>; 4])
    requires { blank ≡ J.book }
{
    let Ok(mut publisher) = Publisher::<J>::new(alloc, blank, first, 4) else {
        panic!(rt; "refused");
    };
    let front = two_readers(&mut publisher);
    let back = two_readers(&mut publisher);
    let Some(mut front) = front else {
        publisher.close(rt);
        panic!(rt; "no readers");
    };
    let Some(mut back) = back else {
        publisher.close(rt);
        panic!(rt; "no readers");
    };
    let posts = Posts::new();
    let (published, read) = join(
        rt,
        || published_on(rt, alloc, &mut publisher, &posts),
        || read_by_four(rt, &mut front, &mut back, &posts, digits),
    );
    publisher.close(rt);
    (published, read)
}

/// Two readers that have read nothing.
fn two_readers<J: Imprint>(publisher: &mut Publisher<J>) -> Option<(Reader<J>, Reader<J>)>
    ensures { publisher.new ≡ publisher.old }
{
    let Ok(first) = publisher.reader() else {
        return None;
    };
    let Ok(second) = publisher.reader() else {
        return None;
    };
    Some((first, second))
}

/// Four readers in a thread each.
fn read_by_four<J: Imprint + Send + Sync, R: Threads + Wait + Sync>(
    rt: &R,
    front: &mut (Reader<J>, Reader<J>),
    back: &mut (Reader<J>, Reader<J>),
    posts: &Posts<J>,
    digits: &Dialled,
) -> [Option<u32>; 4] {
    let (a, b) = front;
    let (c, d) = back;
    let ((a, b), (c, d)) = join(
        rt,
        || {
            join(
                rt,
                || read_on(rt, a, &posts.first, posts, digits),
                || read_on(rt, b, &posts.second, posts, digits),
            )
        },
        || {
            join(
                rt,
                || read_on(rt, c, &posts.third, posts, digits),
                || read_on(rt, d, &posts.fourth, posts, digits),
            )
        },
    );
    [a, b, c, d]
}

/// Publishes up to the last version, and tells each reader of every version. The version that is
/// then in force.
fn published_on<J: Imprint, R: Wait>(
    rt: &R,
    alloc: Global,
    publisher: &mut Publisher<J>,
    posts: &Posts<J>,
) -> u32
    requires { length publisher.old < 10 }
{
    let mut version = 1;
    for next in 2..LAST + 1 {
        if !is_published(rt, alloc, publisher, next) {
            break;
        }
        version = next;
        tell(rt, publisher, &posts.first, version);
        tell(rt, publisher, &posts.second, version);
        tell(rt, publisher, &posts.third, version);
        tell(rt, publisher, &posts.fourth, version);
        posts.version.store(u64::from(version), Ordering::SeqCst);
    }
    posts.over.store(1, Ordering::SeqCst);
    version
}

/// Publishes the tables of this version, and says whether they have its number.
fn is_published<J: Imprint, R: Wait>(
    rt: &R,
    alloc: Global,
    publisher: &mut Publisher<J>,
    version: u32,
) -> bool
    requires { length publisher.old < 5000 }
    ensures { length publisher.new ≤ length publisher.old + 1 }
{
    let Some(tables) = tables_of_version(alloc, version) else {
        return false;
    };
    match publisher.publish(rt, tables) {
        Ok(published) => published.value() == version,
        Err(_) => false,
    }
}

/// Puts what the publisher tells in the place of what was told before.
fn tell<J: Imprint, R: Wait>(
    rt: &R,
    publisher: &mut Publisher<J>,
    post: &Mutex<Option<Letter<J>>>,
    version: u32,
)
    ensures { publisher.new ≡ publisher.old }
{
    let told = publisher.tell();
    *post.lock(rt) = Some(Letter { version, told });
}

/// Reads on until all is published, once for each version that it sees told. The version that it
/// read last: none if a version was lower than one before or than one that it was told of, or if it
/// read tables that aren't those of their version.
fn read_on<J: Imprint, R: Wait>(
    rt: &R,
    reader: &mut Reader<J>,
    post: &Mutex<Option<Letter<J>>>,
    posts: &Posts<J>,
    digits: &Dialled,
) -> Option<u32> {
    let mut last = 1;
    for _ in rt.forever() {
        let is_over = posts.over.load(Ordering::SeqCst);
        if is_over == 1 || posts.version.load(Ordering::SeqCst) > u64::from(last) {
            let told = learned(rt, reader, post);
            let least = if told > last { told } else { last };
            last = read_in_order(reader, digits, least)?;
        }
        if is_over == 1 {
            break;
        }
    }
    Some(last)
}

/// Learns what the publisher told since the last time, if it did. Its version, 0 if there is none.
fn learned<J: Imprint, R: Wait>(
    rt: &R,
    reader: &mut Reader<J>,
    post: &Mutex<Option<Letter<J>>>,
) -> u32 {
    let letter = post.lock(rt).take();
    match letter {
        Some(letter) => {
            reader.learn(letter.told);
            letter.version
        }
        None => 0,
    }
}

/// Makes a call of each kind. The version that was read last, if none is lower than the one before
/// and all tables are those of their version.
fn read_in_order<J: Imprint>(reader: &mut Reader<J>, digits: &Dialled, least: u32) -> Option<u32> {
    let first = reader.version().ok()?.value();
    let (second, remote_limit) = number_read(reader)?;
    let routed = reader.route(digits).ok()?;
    let third = routed.version.value();
    let zone = if third % 2 == 1 { to(1) } else { to(2) };
    let in_order = least <= first && first <= second && second <= third;
    if in_order && remote_limit == Some(10 * u64::from(second)) && routed.plan == zone {
        return Some(third);
    }
    None
}

/// The version in force, and the remote limit of its tables.
fn number_read<J: Imprint>(reader: &mut Reader<J>) -> Option<(u32, Option<u64>)> {
    match reader.read() {
        Ok((version, tables)) => Some((version.value(), tables.remote_limit())),
        Err(_) => None,
    }
}

/// The tables of a version, unlike those of any other: the remote limit is ten times its number,
/// and numbers that begin with 1 go to zone 1 if it is odd, and else to zone 2.
fn tables_of_version(alloc: Global, version: u32) -> Option<Arc<Tables, Global>> {
    let zone = if version % 2 == 1 { 'x' } else { 'y' };
    let text = format!(in alloc;
        "zone local a d\nzone remote x d 10.9.0.1\nzone remote y d 10.9.0.2\n\
         zone prefix {zone} 1*\nbandwidth remote {version}\n"
    );
    let Ok(text) = text else {
        return None;
    };
    let Ok(commands) = read(alloc, text.as_bytes()) else {
        return None;
    };
    let Ok(tables) = Tables::compile(alloc, commands) else {
        return None;
    };
    Arc::new(alloc, tables).ok()
}
