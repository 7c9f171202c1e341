//! The number of the shard that a key belongs to.
ghost use Rattle.std.specs.Prelude.{◌≡◌, ◌<◌, ◌^◌};
ghost use Rattle.std.specs.List.{fold};
ghost use Rattle.std.specs.Int.{bytes_high_first};
ghost use Rattle.ds_base.specs.Keys.{fnv_step, shard_of};

use ds_base::Nums;

/// The hash of no bytes, by FNV-1a of 64 bits.
const BASIS: u64 = 14_695_981_039_346_656_037;

/// By what FNV-1a of 64 bits multiplies.
const PRIME: u64 = 1_099_511_628_211;

/// The number of the shard of this key among `n`: the FNV-1a hash of 64 bits of its numbers, each as
/// 16 bytes big-endian, modulo `n`. Equal keys have one shard. It takes no memory.
pub fn shard(key: &Nums, n: u32) -> u32
    requires { 0 < n }
    ensures shard { result ≡ shard_of key.now n }
    ensures among { result < n }
{
    let mut hash = BASIS;
    for i in 0..key.len() {
        hash = with_number(hash, key.get(i));
    }
    (hash % u64::from(n)) as u32
}

/// The hash of the bytes that have the hash `from` and of the number after them.
fn with_number(from: u64, number: u128) -> u64
    ensures { result ≡ fold fnv_step from (bytes_high_first 16 number) }
{
    let bytes = number.to_be_bytes();
    let mut hash = from;
    for byte in bytes.iter() {
        hash = (hash ^ u64::from(*byte)).wrapping_mul(PRIME);
    }
    hash
}
