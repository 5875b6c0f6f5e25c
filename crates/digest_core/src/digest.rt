ghost use Rattle.std.specs.Prelude.{◌≡◌, length};

use std::marker::Model;
use std::{fmt, str};

/// A digest, of 32 bytes. Contracts see the list of its bytes.
#[derive(Clone, Copy, Debug, PartialEq, Eq)]
pub struct Digest(pub [u8; 32]);

impl Model for Digest {
    ghost use Rattle.std.specs.Prelude.{ℕ, List};
    ghost use Rattle.digest_core.specs.Digests.{IsDigest};

    ghost Value = { List ℕ };

    ghost view = { λ d. d.0 };

    ghost invariant = { λ d. IsDigest d.0 };

    ghost inverse = { λ bytes. record { 0 = bytes } };
}

impl Digest {
    ghost use Rattle.digest_core.specs.Digests.{IsDigest};

    /// The digest with these 32 bytes.
    pub fn of(bytes: &[u8]) -> Digest
        requires { length bytes.now ≡ 32 }
        ensures { result ≡ bytes.now }
    {
        let mut digest = [0; 32];
        digest.copy_from_slice(bytes);
        Digest(digest)
    }

    /// The bytes of the digest.
    pub fn bytes(&self) -> &[u8; 32]
        ensures value { result.now ≡ self.now }
        ensures digest { IsDigest self.now }
    {
        &self.0
    }
}

/// 64 lower-case hexadecimal digits, in the order of the bytes.
impl fmt::Display for Digest {
    ghost use Rattle.std.specs.Prelude.{Some};
    ghost use Rattle.digest_core.specs.Text.{digest_text};

    ghost output = { λ digest. Some (digest_text digest) };

    fn fmt<W: fmt::Write>(&self, f: &mut fmt::Formatter<W>) -> fmt::Result {
        let mut digits = [0; 64];
        let Ok(()) = hex::encode_to_slice(self.0.as_slice(), &mut digits) else {
            unreachable!();
        };
        let Ok(text) = str::from_utf8(&digits) else {
            unreachable!();
        };
        f.write_str(text)
    }
}
