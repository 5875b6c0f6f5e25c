use crate::Seal;
use byte_cursor::ItemList;
use std::alloc::Global;
use std::marker::Model;
use std::sync::Arc;

/// The numbers of the entries that an entry's assumption calls are linked to.
pub type LinkList = ItemList<u16>;

/// Seals, each of which may be held elsewhere too.
pub type SealList = ItemList<Arc<Seal, Global>>;

/// Entries.
pub type EntryList = ItemList<Entry>;

/// A chain of seals, and for each of its assumption calls the number of an entry. Contracts see the lists' items.
#[derive(Drop)]
pub struct Entry {
    pub links: LinkList,
    pub seals: SealList,
}

impl Model for Entry {
    ghost use Rattle.std.specs.Prelude.{map};
    ghost use Rattle.std.specs.Arc.{arc_value};
    ghost use Rattle.receipt_types.specs.Bundles as plain;

    ghost Value = { plain.Entry };

    ghost coded = { plain.entry_code };

    ghost view = { λ e. record { links = e.links.items; seals = map (λ seal. arc_value seal) e.seals.items } };
}

/// A receipt: entries, numbered from 0. Contracts see the list of the entries.
#[derive(Drop)]
pub struct Bundle {
    pub entries: EntryList,
}

impl Model for Bundle {
    ghost use Rattle.std.specs.Coded.{coded_list};
    ghost use Rattle.receipt_types.specs.Bundles as plain;

    ghost Value = { plain.Bundle };

    ghost coded = { coded_list plain.entry_code };

    ghost view = { λ b. b.entries.items };
}
