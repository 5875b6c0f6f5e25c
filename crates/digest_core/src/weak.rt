ghost use Rattle.std.specs.Prelude.{◌≡◌, ◌%◌, length, sum};
ghost use Rattle.digest_core.specs.Weak.{weak_digest, IsDigest-weak};

use crate::digest::Digest;
use crate::digester::Digester;

/// A digest function whose collisions are found at sight, for tests: byte 0 is the sum of the bytes
/// modulo 256, byte 1 their number modulo 256, and the rest is zero.
#[derive(Clone, Copy, Debug)]
pub struct WeakDigester {
    sum: u8,
    count: u8,
}

impl Digester for WeakDigester {
    ghost stands = { λ d m. (d.sum ≡ sum m % 256) × (d.count ≡ length m % 256) };

    ghost digest_of = { weak_digest };

    ghost is_digest = { IsDigest-weak };

    fn start() -> Self {
        WeakDigester { sum: 0, count: 0 }
    }

    fn add(&mut self, bytes: &[u8]) {
        for byte in bytes {
            self.sum = self.sum.wrapping_add(*byte);
            self.count = self.count.wrapping_add(1);
        }
    }

    #[tactic(auto, unfolding(crate::specs::Weak::weak_digest))]
    fn finish(self) -> Digest {
        let mut digest = [0; 32];
        digest[0] = self.sum;
        digest[1] = self.count;
        Digest::of(&digest)
    }
}
