ghost use Rattle.std.specs.Prelude.{◌≡◌, ◌^◌, ◌<◌, length};
ghost use Rattle.digest_core.specs.Tagged.{tagged_digest, list_digest};

use crate::digest::Digest;
use crate::digester::{Digester, hash};

/// The digest of a tagged string: the tag's digest, at most 65,535 digests, the words as 4 bytes
/// each and the number of digests as 2 bytes, little-endian.
pub fn tagged<D: Digester>(tag: &str, downs: &[Digest], words: &[u32]) -> Digest
    requires { length downs.now < 2 ^ 16 }
    ensures { result ≡ tagged_digest D.digest_of tag.now downs.now words.now }
{
    let mut digester = D::start();
    digester.add(&hash::<D>(tag.as_bytes()).0);
    for down in downs {
        digester.add(&down.0);
    }
    for word in words {
        digester.add(&word.to_le_bytes());
    }
    let count = downs.len() as u16;
    digester.add(&count.to_le_bytes());
    digester.finish()
}

/// The digest of a list of digests under a tag: 32 zero bytes for the empty list, and else that of
/// the first item and the digest of the rest.
pub fn tagged_list<D: Digester>(tag: &str, items: &[Digest]) -> Digest
    ensures { result ≡ list_digest D.digest_of tag.now items.now }
{
    let mut list = Digest::of(&[0; 32]);
    let mut at = items.len();
    while at > 0 {
        at -= 1;
        list = tagged::<D>(tag, &[items[at], list], &[]);
    }
    list
}
