ghost use Rattle.part_tree.specs.Canonical.{IsCanonical};
ghost use Rattle.std.specs.Prelude.{ℕ, ◌^◌, ◌≤◌};
ghost use Rattle.receipt_types.specs.Limits.{SealLimits, EntryLimits, KeepsLimits};
ghost use Rattle.receipt_types.specs.Spelling.{tree_bytes, seal_bytes, entry_bytes, bundle_bytes};
ghost use Rattle.receipt_codec.specs.Reading.{OneSpelled};

/// Bytes have a prefix that spells a canonical tree in at most one way, and likewise a seal, an entry and a bundle.
pub fn spelling_laws()
    ensures trees { OneSpelled tree_bytes IsCanonical }
    ensures seals { OneSpelled seal_bytes SealLimits }
    ensures entries { (e n : ℕ) → n ≤ 2 ^ 16 → OneSpelled entry_bytes (EntryLimits e n) }
    ensures bundles { OneSpelled bundle_bytes KeepsLimits }
{}
