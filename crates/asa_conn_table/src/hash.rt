//! The buckets of keys and ids.
ghost use Rattle.std.specs.Prelude.{◌≡◌, ◌<◌, ◌%◌};
ghost use Rattle.asa_conn_table.specs.Hash as spec;

use asa_base::Key;

/// A hash with one more number in it.
#[tactic(auto, unfolding(crate::specs::Hash::stir))]
fn stir(hash: u64, number: u32) -> u64
    requires { hash < 4294967291 }
    ensures value { result ≡ spec.stir hash number }
    ensures small { result < 4294967291 }
{
    (hash * 16777619 + u64::from(number)) % 4294967291
}

/// The hash of a key.
#[tactic(auto, unfolding(crate::specs::Hash::key_hash))]
fn key_hash(key: &Key) -> u64
    ensures { result ≡ spec.key_hash key.now }
{
    let ports = u32::from(key.sport) * 65536 + u32::from(key.dport);
    let kind = u32::from(key.ifc) * 65536 + u32::from(key.proto) * 256 + u32::from(key.kind);
    stir(stir(stir(stir(0, kind), key.src.0), key.dst.0), ports)
}

/// The bucket of a key among so many.
pub(crate) fn key_bucket(key: &Key, buckets: u32) -> u32
    requires { 0 < buckets }
    ensures value { result ≡ spec.key_bucket key.now buckets }
    ensures within { result < buckets }
{
    (key_hash(key) % u64::from(buckets)) as u32
}

/// The bucket of an id among so many.
pub(crate) fn id_bucket(id: u64, buckets: u32) -> u32
    requires { 0 < buckets }
    ensures value { result ≡ id % buckets }
    ensures within { result < buckets }
{
    (id % u64::from(buckets)) as u32
}
