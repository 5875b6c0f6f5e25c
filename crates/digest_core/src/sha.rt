ghost use Rattle.sha2.specs.Sha256.{sha256};
ghost use Rattle.sha2.specs.Hashers.{Holds256};
ghost use Rattle.digest_core.specs.Sha.{IsDigest-sha256};

use crate::digest::Digest;
use crate::digester::Digester;
use sha2::{Digest as _, Sha256};

/// SHA-256 (FIPS 180-4, section 6.2).
#[derive(Drop)]
pub struct ShaDigester {
    hasher: Sha256,
}

impl Digester for ShaDigester {
    ghost stands = { λ d m. Holds256 d.hasher m };

    ghost digest_of = { sha256 };

    ghost is_digest = { IsDigest-sha256 };

    fn start() -> Self {
        ShaDigester {
            hasher: Sha256::new(),
        }
    }

    fn add(&mut self, bytes: &[u8]) {
        self.hasher.update(bytes);
    }

    fn finish(self) -> Digest {
        Digest::of(&self.hasher.finalize())
    }
}
