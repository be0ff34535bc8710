//! What the table counts, and how it is found.
ghost use Rattle.std.specs.Prelude.{◌≡◌, ◌<◌, ◌%◌};
ghost use Rattle.asa_pools.specs.Keys as spec;

use crate::held::{Binding, Held};
use asa_base::Addr;

/// A port of an address, whoever holds it.
#[derive(Clone, Copy, Debug, PartialEq, Eq)]
pub(crate) struct Port {
    pub proto: u8,
    pub addr: Addr,
    pub port: u16,
}

/// What is counted.
#[derive(Clone, Copy, Debug, PartialEq, Eq)]
pub(crate) enum Key {
    /// Connections that hold a port to the same end.
    Held(Held),
    /// Connections that hold a port, to whatever end.
    Port(Port),
    /// Connections that hold a whole address.
    Address(Addr),
    /// Connections of one input and source that hold a whole address.
    Binding(Binding),
}

/// Which key a look-up is for.
#[derive(Clone, Copy, Debug)]
pub(crate) enum Wanted {
    /// This one.
    Key(Key),
    /// A binding of this input and source to an address between these two, which both count.
    Between {
        ifc: u8,
        src: Addr,
        first: Addr,
        last: Addr,
    },
}

/// Whether two ends are the same.
fn same_end(a: Option<(Addr, u16)>, b: Option<(Addr, u16)>) -> bool
    ensures { result ≡ spec.same_end a b }
{
    match (a, b) {
        (None, None) => true,
        (Some(c), Some(d)) => c.0.0 == d.0.0 && c.1 == d.1,
        (None, Some(_)) | (Some(_), None) => false,
    }
}

/// Whether two held ports are the same, with the same end.
fn same_held(a: Held, b: Held) -> bool
    ensures { result ≡ spec.same_held a b }
{
    a.proto == b.proto && a.addr.0 == b.addr.0 && a.port == b.port && same_end(a.to, b.to)
}

/// Whether two ports are the same.
fn same_port(a: Port, b: Port) -> bool
    ensures { result ≡ spec.same_port a b }
{
    a.proto == b.proto && a.addr.0 == b.addr.0 && a.port == b.port
}

/// Whether two bindings are the same.
fn same_binding(a: Binding, b: Binding) -> bool
    ensures { result ≡ spec.same_binding a b }
{
    a.addr.0 == b.addr.0 && a.ifc == b.ifc && a.src.0 == b.src.0
}

/// Whether two keys are the same.
fn same_key(a: Key, b: Key) -> bool
    ensures { result ≡ spec.same_key a b }
{
    match (a, b) {
        (Key::Held(h), Key::Held(i)) => same_held(h, i),
        (Key::Port(p), Key::Port(q)) => same_port(p, q),
        (Key::Address(x), Key::Address(y)) => x.0 == y.0,
        (Key::Binding(c), Key::Binding(d)) => same_binding(c, d),
        _ => false,
    }
}

/// Whether a key is a binding of this input and source to an address between two.
fn is_between(ifc: u8, src: Addr, first: Addr, last: Addr, key: Key) -> bool
    ensures { result ≡ spec.is_between ifc src first last key }
{
    match key {
        Key::Binding(b) => {
            b.ifc == ifc && b.src.0 == src.0 && first.0 <= b.addr.0 && b.addr.0 <= last.0
        }
        Key::Held(_) | Key::Port(_) | Key::Address(_) => false,
    }
}

/// A hash with one more number in it.
#[tactic(auto, unfolding(crate::specs::Keys::stir))]
fn stir(hash: u64, number: u32) -> u64
    requires { hash < 4294967291 }
    ensures value { result ≡ spec.stir hash number }
    ensures small { result < 4294967291 }
{
    (hash * 16777619 + u64::from(number)) % 4294967291
}

/// The hash of four numbers.
#[tactic(auto, unfolding(crate::specs::Keys::hash_of))]
fn hash_of(kind: u32, addr: Addr, other: Addr, port: u16) -> u64
    ensures { result ≡ spec.hash_of kind addr.0 other.0 port }
{
    stir(stir(stir(stir(0, kind), addr.0), other.0), u32::from(port))
}

/// The hash of a held port.
fn held_hash(h: Held) -> u64
    ensures { result ≡ spec.held_hash h }
{
    let kind = u32::from(h.proto) * 65536 + u32::from(h.port);
    match h.to {
        None => hash_of(kind, h.addr, Addr(0), 0),
        Some(end) => hash_of(kind, h.addr, end.0, end.1),
    }
}

impl Key {
    /// The key's hash. Bindings of one input and source have one hash.
    fn hash(self) -> u64
        ensures { result ≡ spec.key_hash self }
    {
        match self {
            Key::Held(h) => held_hash(h),
            Key::Port(p) => hash_of(
                u32::from(p.proto) * 65536 + u32::from(p.port),
                p.addr,
                Addr(1),
                1,
            ),
            Key::Address(addr) => hash_of(16777216, addr, Addr(0), 0),
            Key::Binding(b) => hash_of(u32::from(b.ifc), b.src, Addr(0), 1),
        }
    }

    /// The key's bucket among so many.
    pub(crate) fn bucket(self, buckets: u32) -> u32
        requires { 0 < buckets }
        ensures value { result ≡ spec.key_hash self % buckets }
        ensures within { result < buckets }
    {
        (self.hash() % u64::from(buckets)) as u32
    }
}

impl Wanted {
    /// Whether a key is one that is wanted.
    pub(crate) fn passes(self, key: Key) -> bool
        ensures { result ≡ spec.passes self key }
    {
        match self {
            Wanted::Key(wanted) => same_key(wanted, key),
            Wanted::Between {
                ifc,
                src,
                first,
                last,
            } => is_between(ifc, src, first, last, key),
        }
    }

    /// The bucket of the keys that are wanted, among so many.
    pub(crate) fn bucket(self, buckets: u32) -> u32
        requires { 0 < buckets }
        ensures value { result ≡ spec.wanted_hash self % buckets }
        ensures within { result < buckets }
    {
        match self {
            Wanted::Key(key) => key.bucket(buckets),
            Wanted::Between {
                ifc,
                src,
                first,
                ..
            } => Key::Binding(Binding {
                addr: first,
                ifc,
                src,
            })
            .bucket(buckets),
        }
    }
}
