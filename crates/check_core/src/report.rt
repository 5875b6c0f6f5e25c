use byte_cursor::{ByteList, ItemList};
use digest_core::Digest;
use receipt_types::LinkList;
use std::marker::Model;

/// What is reported of an entry: the digest of its first state, its exit code, the length in bytes and the digest of its
/// journal, its conditional and its claim digest, its numbers of assumption calls, seals and steps, and its links.
/// Contracts see the list of the links.
#[derive(Drop)]
pub struct EntryClaim {
    pub image: Digest,
    pub exit: u32,
    pub journal_bytes: u64,
    pub journal_digest: Digest,
    pub conditional: Digest,
    pub claim: Digest,
    pub calls: u64,
    pub seals: u32,
    pub steps: u64,
    pub links: LinkList,
}

impl Model for EntryClaim {
    ghost use Rattle.check_core.specs.Reports as plain;

    ghost Value = { plain.EntryReport };

    ghost coded = { plain.entry_report_code };

    ghost view = { λ e.
        record {
          image = e.image;
          exit = e.exit;
          journal_bytes = e.journal_bytes;
          journal_digest = e.journal_digest;
          conditional = e.conditional;
          claim = e.claim;
          calls = e.calls;
          seals = e.seals;
          steps = e.steps;
          links = e.links.items;
        } };
}

/// The entries' reports.
pub type ClaimList = ItemList<EntryClaim>;

/// What a check reports of a bundle: the first entry's journal, and each entry. Contracts see the lists' items.
#[derive(Drop)]
pub struct Report {
    pub journal: ByteList,
    pub entries: ClaimList,
}

impl Model for Report {
    ghost use Rattle.check_core.specs.Reports as plain;

    ghost Value = { plain.Report };

    ghost coded = { plain.report_code };

    ghost view = { λ r. record { journal = r.journal.items; entries = r.entries.items } };
}
