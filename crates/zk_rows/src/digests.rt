//! Digests of bytes, states and claims.

use crate::lines::{Hex, Lines};
use crate::shelf::{Shelf, copied};
use crate::stop::RowStop;
use crate::words::{decimal, hexadecimal, named, split_at_mark};
use byte_cursor::{ItemList, WordList};
use claim_types::{
    Exit, SpanClaim, State, claim_digest, conditional_digest, ok_claim_digest, state_digest,
};
use digest_core::{Digest, Digester, hash, node, tagged, tagged_list};
use host_calls::{AssumeCall, CallList};
use std::alloc::Global;

// A list of digests.
type DigestList = ItemList<Digest>;

// What a digest is of.
#[derive(Clone, Copy)]
enum Subject {
    Bytes,
    Node,
    Tagged,
    TaggedList,
    State,
    OkClaim,
    Claim,
    Conditional,
}

static SUBJECTS: [(&str, Subject); 8] = [
    ("hash", Subject::Bytes),
    ("node", Subject::Node),
    ("tagged", Subject::Tagged),
    ("tagged-list", Subject::TaggedList),
    ("state", Subject::State),
    ("ok", Subject::OkClaim),
    ("claim", Subject::Claim),
    ("conditional", Subject::Conditional),
];

/// Adds the digest that the words ask for, the first of which says what it is of.
pub(crate) fn add_digest<D: Digester>(
    alloc: Global,
    shelf: &Shelf,
    out: &mut Lines,
    subject: &str,
    words: &[&str],
) -> Result<(), RowStop> {
    let digest = digest_of::<D>(alloc, shelf, named(&SUBJECTS, subject)?, words)?;
    out.add(Hex(digest.bytes().as_slice()))
}

fn digest_of<D: Digester>(
    alloc: Global,
    shelf: &Shelf,
    subject: Subject,
    words: &[&str],
) -> Result<Digest, RowStop> {
    match subject {
        Subject::Bytes => hash_of::<D>(shelf, words),
        Subject::Node => node_of::<D>(shelf, words),
        Subject::Tagged => tagged_parts::<D>(alloc, shelf, words),
        Subject::TaggedList => tagged_items::<D>(alloc, shelf, words),
        Subject::State => state_of::<D>(shelf, words),
        Subject::OkClaim => ok_claim_of::<D>(shelf, words),
        Subject::Claim => digest_of_claim::<D>(alloc, shelf, words),
        Subject::Conditional => conditional_of::<D>(alloc, shelf, words),
    }
}

fn digest_of_claim<D: Digester>(
    alloc: Global,
    shelf: &Shelf,
    words: &[&str],
) -> Result<Digest, RowStop> {
    Ok(claim_digest::<D>(&claim_of(alloc, shelf, words)?))
}

fn conditional_of<D: Digester>(
    alloc: Global,
    shelf: &Shelf,
    words: &[&str],
) -> Result<Digest, RowStop> {
    Ok(conditional_digest::<D>(&claim_of(alloc, shelf, words)?))
}

// The digest of which a file has the bytes.
fn kept(shelf: &Shelf, name: &str) -> Result<Digest, RowStop> {
    let bytes = shelf.bytes(name)?;
    if bytes.len() != 32 {
        return Err(RowStop::NoRow);
    }
    Ok(Digest::of(bytes))
}

fn hash_of<D: Digester>(shelf: &Shelf, words: &[&str]) -> Result<Digest, RowStop> {
    let [name] = words else {
        return Err(RowStop::NoRow);
    };
    Ok(hash::<D>(shelf.bytes(name)?))
}

fn node_of<D: Digester>(shelf: &Shelf, words: &[&str]) -> Result<Digest, RowStop> {
    let [left, right] = words else {
        return Err(RowStop::NoRow);
    };
    Ok(node::<D>(&kept(shelf, left)?, &kept(shelf, right)?))
}

fn state_of<D: Digester>(shelf: &Shelf, words: &[&str]) -> Result<Digest, RowStop> {
    let [state] = words else {
        return Err(RowStop::NoRow);
    };
    Ok(state_digest::<D>(&state_in(shelf, state)?))
}

fn ok_claim_of<D: Digester>(shelf: &Shelf, words: &[&str]) -> Result<Digest, RowStop> {
    let [image, journal] = words else {
        return Err(RowStop::NoRow);
    };
    Ok(ok_claim_digest::<D>(&kept(shelf, image)?, &kept(shelf, journal)?))
}

// A tag, digests as `$NAME`, and then words.
fn tagged_parts<D: Digester>(
    alloc: Global,
    shelf: &Shelf,
    words: &[&str],
) -> Result<Digest, RowStop> {
    let [tag, parts @ ..] = words else {
        return Err(RowStop::NoRow);
    };
    let mut downs = DigestList::new(alloc);
    let mut numbers = WordList::new(alloc);
    for part in parts {
        push_part(shelf, &mut downs, &mut numbers, part)?;
    }
    if downs.len() >= 65_536 {
        return Err(RowStop::NoRow);
    }
    Ok(tagged::<D>(tag, downs.as_slice(), numbers.as_slice()))
}

fn push_part(
    shelf: &Shelf,
    downs: &mut DigestList,
    numbers: &mut WordList,
    part: &str,
) -> Result<(), RowStop> {
    match part.strip_prefix('$') {
        Some(name) => Ok(downs.push(kept(shelf, name)?)?),
        None => Ok(numbers.push(hexadecimal(part)?)?),
    }
}

fn tagged_items<D: Digester>(
    alloc: Global,
    shelf: &Shelf,
    words: &[&str],
) -> Result<Digest, RowStop> {
    let [tag, names @ ..] = words else {
        return Err(RowStop::NoRow);
    };
    let mut items = DigestList::new(alloc);
    for name in names {
        items.push(kept(shelf, name)?)?;
    }
    Ok(tagged_list::<D>(tag, items.as_slice()))
}

// `PC:ROOT`, the pc in hexadecimal and the file of the root.
fn state_in(shelf: &Shelf, text: &str) -> Result<State, RowStop> {
    let (pc, root) = split_at_mark(text, ':')?;
    Ok(State {
        pc: hexadecimal(pc)?,
        root: kept(shelf, root)?,
    })
}

// `split`, or the exit code of a halt.
fn exit_of(text: &str) -> Result<Exit, RowStop> {
    if text == "split" {
        return Ok(Exit::Split);
    }
    Ok(Exit::Halted(decimal(text)?))
}

// The states before and after, the exit, the file of the journal, and the calls.
fn claim_of(alloc: Global, shelf: &Shelf, parts: &[&str]) -> Result<SpanClaim, RowStop> {
    let [before, after, exit, journal, calls @ ..] = parts else {
        return Err(RowStop::NoRow);
    };
    let (before, after) = (state_in(shelf, before)?, state_in(shelf, after)?);
    let exit = exit_of(exit)?;
    let journal = copied(alloc, shelf.bytes(journal)?)?;
    Ok(SpanClaim {
        before,
        after,
        exit,
        journal,
        calls: calls_of(alloc, shelf, calls)?,
    })
}

// `IMAGE:JOURNAL`, the files of the image id and of the journal's digest.
fn calls_of(alloc: Global, shelf: &Shelf, texts: &[&str]) -> Result<CallList, RowStop> {
    let mut calls = CallList::new(alloc);
    for text in texts {
        calls.push(call_of(shelf, text)?)?;
    }
    Ok(calls)
}

fn call_of(shelf: &Shelf, text: &str) -> Result<AssumeCall, RowStop> {
    let (image, journal) = split_at_mark(text, ':')?;
    Ok(AssumeCall {
        image: kept(shelf, image)?,
        journal: kept(shelf, journal)?,
    })
}
