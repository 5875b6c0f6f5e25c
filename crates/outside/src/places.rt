//! Finding a file by its name, and the plain steps of a read and a write.
ghost use Rattle.std.specs.Prelude.{◌≡◌, ◌↔◌, length, IfSome, IfNone, IsTrue, Contains, min, take, drop, ◌-◌};
ghost use Rattle.std.specs.Bool.{OnTrue, OnFalse};
ghost use Rattle.std.specs.Option.{option_copied};
ghost use Rattle.outside.specs.Files.{files_with};
ghost use Rattle.outside.specs.NamedFile.{files_of, with_bytes, HasRoom, PassedBy, StandsAt};

use crate::slot::Slot;

// Where the first file of a name stands.
fn place_of(files: &[Slot], name: &[u8]) -> Option<usize>
    ensures found { IfSome result (StandsAt files.now name.now) }
    ensures none { IfNone result (PassedBy (length files.now) files.now name.now) }
{
    for (place, file) in files.iter().enumerate() {
        if file.has_name(name) {
            return Some(place);
        }
    }
    None
}

// What a name holds.
pub(crate) fn held<'a>(files: &'a [Slot], name: &[u8]) -> Option<&'a [u8]>
    ensures { option_copied result ≡ files_of files.now name.now }
{
    let place = place_of(files, name)?;
    files[place].held()
}

// Makes a name hold the bytes, where its file has room for them.
pub(crate) fn store(files: &mut [Slot], name: &[u8], bytes: &[u8]) -> bool
    ensures room { IsTrue result ↔ HasRoom files.old name.now (length bytes.now) }
    ensures stored { OnTrue result
        (files_of files.new ≡ files_with name.now bytes.now (files_of files.old)) }
    ensures files { OnTrue result (files.new ≡ with_bytes name.now bytes.now files.old) }
    ensures kept { OnFalse result (files.new ≡ files.old) }
{
    let Some(place) = place_of(files, name) else {
        return false;
    };
    let file = &mut files[place];
    if file.room() < bytes.len() {
        return false;
    }
    file.fill(bytes);
    true
}

// Whether a call's number is among those that fail.
pub(crate) fn is_listed(fails: &[u32], call: u64) -> bool
    ensures { IsTrue result ↔ Contains fails.now call }
{
    fails.iter().any(|number| u64::from(*number) == call)
}

// Copies the bytes from `at` on, as many as the buffer takes, and tells how many.
pub(crate) fn copy_from(bytes: &[u8], at: u64, buffer: &mut [u8]) -> usize
    ensures count { result ≡ min (length bytes.now - at) (length buffer.old) }
    ensures copied { take result buffer.new ≡ take result (drop at bytes.now) }
    ensures beyond { drop result buffer.new ≡ drop result buffer.old }
{
    let start = (at as usize).min(bytes.len());
    let rest = &bytes[start..];
    let count = rest.len().min(buffer.len());
    buffer[..count].copy_from_slice(&rest[..count]);
    count
}
