//! Routes as they are printed, and read again.

ghost use Rattle.std.specs.Prelude.{◌≡◌, ◌<◌, bytes_eq};
ghost use Rattle.gk_lines.specs.LineBuffer.{ROOM_BYTES, line_of_words, room_of};
ghost use Rattle.gk_terms.specs.Text.{words_of};
ghost use Rattle.rulings.specs.Routes.{destination_text, destination_words, route_text};
ghost use Rattle.call_files.specs.RouteTexts.{destination_at, destination_of, printed_as, route_of};

use gk_lines::LineBuffer;
use gk_terms::words::Words;
use gk_terms::{Address, Name};
use rulings::{Destination, Route, RouteRefusal};

/// The port of a text that has none. It does not matter which, since that is no printed text.
const SOME_PORT: u16 = 1720;

#[tactic(auto, unfolding(gk_lines::specs::LineBuffer::extended))]
/// Makes it the text of a route: `GW ID IP:PORT`, `TERM ID IP:PORT` or `ZONE NAME IP:PORT`, or the
/// word of a refusal. Takes no memory.
pub fn show_route(line: &mut LineBuffer, route: &Route)
    ensures { line.new ≡ route_text route.now }
{
    match route {
        Route::To(destination) => show_destination(line, destination),
        Route::Refused(RouteRefusal::UnknownPrefix) => line.begin(b"unknown-prefix"),
        Route::Refused(RouteRefusal::NoGateway) => line.begin(b"no-gateway"),
        Route::Refused(RouteRefusal::NoDefault) => line.begin(b"no-default"),
    }
}

#[tactic(auto, using(crate::proofs::RouteLemmas::line_spaced))]
/// Makes it the text of a destination.
fn show_destination(line: &mut LineBuffer, destination: &Destination)
    ensures { line.new ≡ destination_text destination.now }
{
    make_words(line, destination);
}

/// Makes it the words of a destination.
fn make_words(line: &mut LineBuffer, destination: &Destination)
    ensures words { line.new ≡ line_of_words (destination_words destination.now) }
    ensures room { room_of (destination_words destination.now) < ROOM_BYTES }
{
    match destination {
        Destination::Gateway { id, address } => {
            line.begin(b"GW");
            line.name(id);
            line.address(address);
        }
        Destination::Terminal { id, address } => {
            line.begin(b"TERM");
            line.name(id);
            line.address(address);
        }
        Destination::Zone { name, address } => {
            line.begin(b"ZONE");
            line.name(name);
            line.address(address);
        }
    }
}

/// The route that is printed as this text, if there is one. Takes no memory.
pub fn read_route(text: &[u8]) -> Option<Route>
    ensures { result ≡ route_of text.now }
{
    if text == b"unknown-prefix".as_slice() {
        return Some(Route::Refused(RouteRefusal::UnknownPrefix));
    }
    if text == b"no-gateway".as_slice() {
        return Some(Route::Refused(RouteRefusal::NoGateway));
    }
    if text == b"no-default".as_slice() {
        return Some(Route::Refused(RouteRefusal::NoDefault));
    }
    let destination = printed_destination(text)?;
    Some(Route::To(destination))
}

/// The destination that is printed as this text, if there is one.
fn printed_destination(text: &[u8]) -> Option<Destination>
    ensures { result ≡ printed_as text.now (destination_of (words_of text.now)) }
{
    let destination = destination_of(text)?;
    if !is_printed_as(text, &destination) {
        return None;
    }
    Some(destination)
}

/// Whether the destination is printed as this text.
fn is_printed_as(text: &[u8], destination: &Destination) -> bool
    ensures { result ≡ bytes_eq (destination_text destination.now) text.now }
{
    let mut line = LineBuffer::new();
    show_destination(&mut line, destination);
    line.as_bytes() == text
}

/// The destination that the words of the text say.
fn destination_of(text: &[u8]) -> Option<Destination>
    ensures { result ≡ destination_of (words_of text.now) }
{
    let mut words = Words::of(text);
    let kind = words.next()?;
    let name = words.next()?;
    let address = words.next()?;
    let name = Name::read(name).ok()?;
    let address = Address::read(address, SOME_PORT).ok()?;
    destination_at(kind, name, address)
}

/// The destination of the kind that this word says.
fn destination_at(kind: &[u8], name: Name, address: Address) -> Option<Destination>
    ensures { result ≡ destination_at kind.now name address }
{
    if kind == b"GW".as_slice() {
        return Some(Destination::Gateway { id: name, address });
    }
    if kind == b"TERM".as_slice() {
        return Some(Destination::Terminal { id: name, address });
    }
    if kind == b"ZONE".as_slice() {
        return Some(Destination::Zone { name, address });
    }
    None
}
