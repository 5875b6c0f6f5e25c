ghost use Rattle.std.specs.Prelude.{◌≡◌, ◌%◌, ◌<◌, ◌≤◌, ℕ};
ghost use Rattle.page_core.specs.Memory.{top};
ghost use Rattle.page_core.specs.Stored.{memory_of};

use page_core::PageMap;

/// Where a guest begins, and its memory. The entry is a multiple of 4 below 0x0FFFFC00, and the memory is zero from
/// there on.
#[derive(Drop)]
pub struct Image {
    pub entry: u32,
    pub map: PageMap,
    pub ghost aligned: { entry % 4 ≡ 0 },
    pub ghost below: { entry < top },
    pub ghost rest: { (a : ℕ) → top ≤ a → memory_of map a ≡ 0 },
}
