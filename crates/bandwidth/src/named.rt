//! Maps by name, in which an entry without calls may stay until its place is needed.

ghost use Rattle.std.specs.Prelude.{◌≡◌, ◌≤◌, ◌+◌, Bool, Some, None, bytes_eq, if◌then◌else◌, nat_lt, IsOk, OnOk};
ghost use Rattle.std.specs.HashMap.{spare};
ghost use Rattle.std.specs.Map.{lookup};
ghost use Rattle.bandwidth.specs.Named.{that_has_calls};

use gk_terms::Name;
use std::alloc::AllocError;
use std::collections::HashMap;

/// What is kept, under a name, of the open calls that count there.
pub trait Tally {
    ghost has_calls: { Self → Bool };

    /// Whether any call counts there.
    fn has_calls(&self) -> bool
        ensures { result ≡ has_calls self.now };
}

/// Gives the name this value. Takes no memory: a name that has no entry needs room for one.
pub fn put<V: Drop>(map: &mut HashMap<Name, V>, name: Name, value: V)
    requires room { lookup (bytes_eq name) map.old.entries ≡ None → 1 ≤ spare map.old }
    ensures entries { (other : _) → lookup (bytes_eq other) map.new.entries
        ≡ (if bytes_eq name other then Some value else lookup (bytes_eq other) map.old.entries) }
    ensures room { spare map.old ≤ spare map.new + 1 }
{
    let put: Result<_, _> = map.insert(name, value);
    let _ = put.unwrap();
}

/// Makes room for this many more names. If there is too little, the entries without calls go. If
/// memory runs out there may be no room.
pub fn reserve<V: Tally + Drop>(map: &mut HashMap<Name, V>, places: usize) -> Result<(), AllocError>
    ensures entries { (name : _) → lookup (bytes_eq name) map.new.entries
        ≡ (if nat_lt (spare map.old) places
        then that_has_calls V.has_calls (lookup (bytes_eq name) map.old.entries)
        else lookup (bytes_eq name) map.old.entries) }
    ensures room { OnOk result (places ≤ spare map.new) }
    ensures succeeds { places ≤ spare map.old → IsOk result }
{
    if map.capacity() - map.len() >= places {
        return Ok(());
    }
    make_room(map, places)
}

/// The same for a map without the room. It grows only if the entries that stay take more than half
/// of it. So half of it is free afterwards, and the work of going over the entries is spread over
/// as many insertions.
fn make_room<V: Tally + Drop>(map: &mut HashMap<Name, V>, places: usize) -> Result<(), AllocError>
    ensures entries { (name : _) → lookup (bytes_eq name) map.new.entries
        ≡ that_has_calls V.has_calls (lookup (bytes_eq name) map.old.entries) }
    ensures room { OnOk result (places ≤ spare map.new) }
{
    let_go(map);
    if map.reserve(map.len().max(places)).is_ok() {
        return Ok(());
    }
    // There may be no memory for half of it, and yet enough for these.
    map.reserve(places)
}

/// Lets the entries without calls go.
fn let_go<V: Tally + Drop>(map: &mut HashMap<Name, V>)
    ensures { (name : _) → lookup (bytes_eq name) map.new.entries
        ≡ that_has_calls V.has_calls (lookup (bytes_eq name) map.old.entries) }
{
    map.retain(|_, value| value.has_calls());
}
