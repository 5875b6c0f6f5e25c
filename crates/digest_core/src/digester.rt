ghost use Rattle.std.specs.Prelude.{◌≡◌, ℕ, List, [], ◌++◌};
ghost use Rattle.digest_core.specs.Digests.{IsDigest};

use crate::digest::Digest;

/// A digest function, which takes a message piece by piece.
///
/// A digester stands for messages: `start` gives one that stands for the empty message, and `add`
/// appends to each message that it stands for. Nothing here takes memory.
pub trait Digester: Drop + Send + Sync {
    /// The digester stands for this message.
    ghost stands: { Self → List ℕ → Type 0 };

    /// The digest of a message.
    ghost digest_of: { List ℕ → List ℕ };

    /// A digest has 32 bytes.
    ghost is_digest: { (m : List ℕ) → IsDigest (digest_of m) };

    /// A digester of the empty message.
    fn start() -> Self
        ensures { stands result [] };

    /// Appends bytes to the message.
    fn add(&mut self, bytes: &[u8])
        ensures { (m : List ℕ) → stands self.old m → stands self.new (m ++ bytes.now) };

    /// The digest of the message.
    fn finish(self) -> Digest
        ensures { (m : List ℕ) → stands self m → result ≡ digest_of m };
}

/// The digest of these bytes.
pub fn hash<D: Digester>(bytes: &[u8]) -> Digest
    ensures { result ≡ D.digest_of bytes.now }
{
    let mut digester = D::start();
    digester.add(bytes);
    digester.finish()
}

/// The digest of a node with these digests below it, which is that of their 64 bytes.
pub fn node<D: Digester>(left: &Digest, right: &Digest) -> Digest
    ensures { result ≡ D.digest_of (left.now ++ right.now) }
{
    let mut digester = D::start();
    digester.add(&left.0);
    digester.add(&right.0);
    digester.finish()
}
