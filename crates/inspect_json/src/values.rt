//! The values of the parts of a report.
ghost use Rattle.std.specs.Prelude.{◌≡◌, map, decimal, IfOk, OnOk};
ghost use Rattle.hex.specs.Hex.{encode_lower};
ghost use Rattle.json.specs.Print.{escape};
ghost use Rattle.serde_json.specs.Data.{number, unsigned, string, put as with_member};
ghost use Rattle.serde_json.specs.View.{members_view};
ghost use Rattle.inspect_json.specs.Text.{entry_text, report_object};
ghost use Rattle.inspect_json.specs.Values.{HasText, HaveTexts};

use check_core::{EntryClaim, Report};
use digest_core::Digest;
use serde_json::{Map, Value, put};
use std::alloc::{AllocError, Global};

type Members = Map<String, Value>;

// The version of the text's form.
const VERSION: u64 = 1;

// The object of a report.
pub(crate) fn report_value(alloc: Global, report: &Report) -> Result<Value, AllocError>
    ensures { IfOk result (λ value. HasText value (report_object report.now)) }
{
    let entries = entry_values(alloc, report.entries.as_slice())?;
    let mut members = Map::new(alloc);
    put(&mut members, alloc, "entries", Value::Array(entries))?;
    put_number(&mut members, alloc, "version", VERSION)?;
    Ok(Value::Object(members))
}

// The objects of the entries.
fn entry_values(alloc: Global, entries: &[EntryClaim]) -> Result<Vec<Value>, AllocError>
    ensures { IfOk result (λ values. HaveTexts values.items (map entry_text entries.now)) }
{
    let mut values = Vec::new(alloc);
    for entry in entries {
        values.push(entry_value(alloc, entry)?)?;
    }
    Ok(values)
}

// The object of an entry.
fn entry_value(alloc: Global, entry: &EntryClaim) -> Result<Value, AllocError>
    ensures { IfOk result (λ value. HasText value (entry_text entry.now)) }
{
    let links = link_values(alloc, entry.links.as_slice())?;
    let mut members = Map::new(alloc);
    put_number(&mut members, alloc, "calls", entry.calls)?;
    put_digest(&mut members, alloc, "claim", &entry.claim)?;
    put_digest(&mut members, alloc, "conditional", &entry.conditional)?;
    put_number(&mut members, alloc, "exit", entry.exit.into())?;
    put_digest(&mut members, alloc, "image", &entry.image)?;
    put_number(&mut members, alloc, "journal_bytes", entry.journal_bytes)?;
    put_digest(&mut members, alloc, "journal_digest", &entry.journal_digest)?;
    put(&mut members, alloc, "links", Value::Array(links))?;
    put_number(&mut members, alloc, "seals", entry.seals.into())?;
    put_number(&mut members, alloc, "steps", entry.steps)?;
    Ok(Value::Object(members))
}

// Adds a member that is a number.
fn put_number(members: &mut Members, alloc: Global, key: &str, value: u64) -> Result<(), AllocError>
    ensures { OnOk result (members_view members.new.entries
        ≡ with_member key.now (number (unsigned value)) (members_view members.old.entries)) }
{
    put(members, alloc, key, Value::from(value))
}

// Adds a member that is the string of a digest's lower-case hexadecimal digits, which stand in a string as they are.
fn put_digest(
    members: &mut Members,
    alloc: Global,
    key: &str,
    digest: &Digest,
) -> Result<(), AllocError>
    ensures digits { OnOk result (members_view members.new.entries
        ≡ with_member key.now (string (encode_lower digest.now)) (members_view members.old.entries)) }
    ensures plain { escape (encode_lower digest.now) ≡ encode_lower digest.now }
{
    let digits = hex::encode(alloc, digest.bytes().as_slice())?;
    put(members, alloc, key, Value::String(digits))
}

// The numbers of the links.
fn link_values(alloc: Global, links: &[u16]) -> Result<Vec<Value>, AllocError>
    ensures { IfOk result (λ values. HaveTexts values.items (map decimal links.now)) }
{
    let mut values = Vec::new(alloc);
    for link in links {
        values.push(Value::from(*link))?;
    }
    Ok(values)
}
