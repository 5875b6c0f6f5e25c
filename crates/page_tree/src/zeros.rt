ghost use Rattle.std.specs.Prelude.{◌≡◌, ◌≤◌, ℕ, get_or, []};
ghost use Rattle.page_tree.specs.Blocks.{zero_node};
ghost use Rattle.part_tree.specs.declared.sizes.TheConstants.{HEIGHT};

use digest_core::{Digest, Digester};
use std::marker::PhantomData;

/// The digests of the nodes without a stored page, by their heights.
#[derive(Drop)]
pub(crate) struct ZeroNodes<D: Digester> {
    digests: [Digest; 19],
    of: PhantomData<D>,
    ghost are: { (h : ℕ) → h ≤ HEIGHT → get_or digests h [] ≡ zero_node D.digest_of h },
}

impl<D: Digester> ZeroNodes<D> {
    // Computes 19 digests.
    pub(crate) fn new() -> ZeroNodes<D> {
        let page = digest_core::hash::<D>(&[0; 1024]);
        let mut digests = [page; 19];
        for height in 1..19 {
            let below = digests[height - 1];
            digests[height] = digest_core::node::<D>(&below, &below);
        }
        ZeroNodes {
            digests,
            of: PhantomData,
        }
    }

    pub(crate) fn at(&self, height: u32) -> Digest
        requires { height ≤ HEIGHT }
        ensures { result ≡ zero_node D.digest_of height }
    {
        self.digests[height as usize]
    }

    // The same digests, which takes no memory.
    pub(crate) fn copied(&self) -> ZeroNodes<D> {
        ZeroNodes {
            digests: self.digests,
            of: PhantomData,
        }
    }
}
