// Digests of buffers, 64-bit FNV-1a.
ghost use Rattle.std.specs.Prelude.{◌≡◌};
ghost use Rattle.std.specs.List.{flat_map};
ghost use Rattle.replay.specs.Fnv.{fnv_basis, fnv_step, fnv};

use crate::units::Unit;

// The digest of nothing.
const NOTHING: u64 = 0xCBF2_9CE4_8422_2325;

// The prime of FNV-1a.
const PRIME: u64 = 0x0000_0100_0000_01B3;

// The digest of what was put into it.
#[derive(Clone, Copy)]
pub struct Digest(pub u64);

impl Digest {
    // Of nothing.
    pub fn new() -> Digest
        ensures { result.0 ≡ fnv_basis }
    {
        Digest(NOTHING)
    }

    // With one byte more.
    pub fn with_byte(self, byte: u8) -> Digest
        ensures { result.0 ≡ fnv_step self.0 byte }
    {
        Digest((self.0 ^ u64::from(byte)).wrapping_mul(PRIME))
    }

    // With what a buffer holds.
    pub fn with<T: Unit>(self, units: &[T]) -> Digest
        ensures { result.0 ≡ fnv self.0 (flat_map T.bytes units.now) }
    {
        units
            .iter()
            .fold(self, |digest, unit| unit.digested(digest))
    }
}
