//! Hashes of places that keep the order of their owners.
ghost use Rattle.std.specs.Prelude.{◌≡◌, fold};
ghost use Rattle.graphite_props.specs.Hasher.{read_in, place_hash};

use std::hash::{BuildHasherDefault, Hasher};

/// Hashes an owner with the number of a key so that owners in turn stand side by side in a table:
/// properties mostly come in the order of their owners, and a walk through memory is many times
/// as fast as leaps.
#[derive(Clone, Copy, Default)]
pub(crate) struct PlaceHasher {
    /// The last eight bytes, the first of them lowest.
    bytes: u64,
}

/// What makes the hashers of a table.
pub(crate) type PlaceHashers = BuildHasherDefault<PlaceHasher>;

impl Hasher for PlaceHasher {
    ghost write = { λ hasher bytes. record { bytes = fold read_in hasher.bytes bytes } };

    ghost finish = { λ hasher. place_hash hasher.bytes };

    #[inline(always)]
    fn finish(&self) -> u64 {
        place_hash(self.bytes)
    }

    #[inline(always)]
    fn write(&mut self, bytes: &[u8]) {
        let mut last = self.bytes;
        for byte in bytes {
            last = read_in(last, *byte);
        }
        self.bytes = last;
    }
}

/// The last eight bytes after one more.
#[inline(always)]
fn read_in(last: u64, byte: u8) -> u64
    ensures { result ≡ read_in last byte }
{
    last / 256 + u64::from(byte) * 0x0100_0000_0000_0000
}

/// The hash of an owner and the number of a key. Its lower 24 bits, which pick the place in a table,
/// rise by one with the owner, and by a large step with the key. Its upper 8 bits, which a table
/// compares first, differ where the lower ones often agree.
#[inline(always)]
fn place_hash(bytes: u64) -> u64
    ensures { result ≡ place_hash bytes }
{
    let owner = bytes % 0x1_0000_0000;
    let key = bytes / 0x1_0000_0000;
    let place = (owner + key * 0x9E37_79BB) % 0x1_0000_0000;
    let mark = place * 0x9E37_79B1 / 0x0100_0000 % 0x100;
    mark * 0x0100_0000 + place % 0x0100_0000
}
