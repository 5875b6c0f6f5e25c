//! Bytes, halfwords and words of a bus.
ghost use Rattle.std.specs.Prelude.{◌≡◌, ℕ, ◌+◌, ◌-◌, ◌*◌, ◌/◌, ◌%◌, ◌^◌, ◌<◌, ◌≤◌, ◌∷◌, [], IsTrue, OnOk, length};
ghost use Rattle.std.specs.Int.{w16, w32, to_le_bytes, from_le_bytes};
ghost use Rattle.std.specs.List.{flat_map};
ghost use Rattle.page_core.specs.Memory.{bytes, put};
ghost use Rattle.rv_step.specs.Stepping.{Opens};

use crate::bus::Bus;
use digest_core::Digest;
use std::alloc::AllocError;

// The four bytes of the word in which an address of an open page lies.
fn word_bytes<B: Bus>(bus: &B, address: u32) -> [u8; 4]
    requires { IsTrue (B.opens bus.now (address / 1024)) }
    ensures { result ≡ bytes (B.byte_at bus.now) (address / 4 * 4) 4 }
{
    bus.load_word(address / 4 * 4).to_le_bytes()
}

// The byte at an address of an open page.
pub(crate) fn load_byte<B: Bus>(bus: &B, address: u32) -> u8
    requires { IsTrue (B.opens bus.now (address / 1024)) }
    ensures { result ≡ B.byte_at bus.now address }
{
    word_bytes(bus, address)[(address % 4) as usize]
}

// The halfword at an even address of an open page.
pub(crate) fn load_half<B: Bus>(bus: &B, address: u32) -> u16
    requires aligned { address % 2 ≡ 0 }
    requires opened { IsTrue (B.opens bus.now (address / 1024)) }
    ensures { result ≡ from_le_bytes w16 (bytes (B.byte_at bus.now) address 2) }
{
    let bytes = word_bytes(bus, address);
    let at = (address % 4) as usize;
    u16::from_le_bytes([bytes[at], bytes[at + 1]])
}

// Writes a byte at an address of a page that is ready.
pub(crate) fn store_byte<B: Bus>(bus: &mut B, address: u32, value: u8)
    requires opened { IsTrue (B.opens bus.old (address / 1024)) }
    requires room { IsTrue (B.readies bus.old (address / 1024)) }
    ensures same_pages { B.opens bus.new ≡ B.opens bus.old }
    ensures written { B.byte_at bus.new ≡ put (B.byte_at bus.old) address (value ∷ []) }
{
    let mut bytes = word_bytes(bus, address);
    bytes[(address % 4) as usize] = value;
    bus.store_word(address / 4 * 4, u32::from_le_bytes(bytes));
}

// Writes a halfword at an even address of a page that is ready.
pub(crate) fn store_half<B: Bus>(bus: &mut B, address: u32, value: u16)
    requires aligned { address % 2 ≡ 0 }
    requires opened { IsTrue (B.opens bus.old (address / 1024)) }
    requires room { IsTrue (B.readies bus.old (address / 1024)) }
    ensures same_pages { B.opens bus.new ≡ B.opens bus.old }
    ensures written { B.byte_at bus.new ≡ put (B.byte_at bus.old) address (to_le_bytes w16 value) }
{
    let mut bytes = word_bytes(bus, address);
    let at = (address % 4) as usize;
    let [low, high] = value.to_le_bytes();
    bytes[at] = low;
    bytes[at + 1] = high;
    bus.store_word(address / 4 * 4, u32::from_le_bytes(bytes));
}

// Writes words at an address that is a multiple of 4, in pages that are ready.
pub(crate) fn store_words<B: Bus>(bus: &mut B, address: u32, words: &[u32])
    requires aligned { address % 4 ≡ 0 }
    requires fits { address + 4 * length words.now ≤ 2 ^ 28 }
    requires opened { Opens (B.opens bus.old) address (4 * length words.now) }
    requires room { Opens (B.readies bus.old) address (4 * length words.now) }
    ensures same_pages { B.opens bus.new ≡ B.opens bus.old }
    ensures written { B.byte_at bus.new
        ≡ put (B.byte_at bus.old) address (flat_map (to_le_bytes w32) words.now) }
{
    let mut at = address;
    for word in words {
        bus.store_word(at, *word);
        at += 4;
    }
}

// Reads the bytes from an address on, in open pages.
pub(crate) fn load_bytes<B: Bus>(bus: &B, address: u32, buffer: &mut [u8])
    requires fits { address + length buffer.old ≤ 2 ^ 28 }
    requires opened { Opens (B.opens bus.now) address (length buffer.old) }
    ensures { buffer.new ≡ bytes (B.byte_at bus.now) address (length buffer.old) }
{
    let mut at = address;
    for place in 0..buffer.len() {
        buffer[place] = load_byte(bus, at);
        at += 1;
    }
}

// The digest at an address, in open pages.
pub(crate) fn load_digest<B: Bus>(bus: &B, address: u32) -> Digest
    requires fits { address + 32 ≤ 2 ^ 28 }
    requires opened { Opens (B.opens bus.now) address 32 }
    ensures { result ≡ bytes (B.byte_at bus.now) address 32 }
{
    let mut buffer = [0; 32];
    load_bytes(bus, address, &mut buffer);
    Digest::of(&buffer)
}

// Makes the pages of a range ready.
pub(crate) fn make_range_ready<B: Bus>(
    bus: &mut B,
    address: u32,
    size: u32,
) -> Result<(), AllocError>
    requires size { size ≤ 1024 }
    requires fits { address + size ≤ 2 ^ 28 }
    requires opened { Opens (B.opens bus.old) address size }
    ensures same_pages { B.opens bus.new ≡ B.opens bus.old }
    ensures same_bytes { B.byte_at bus.new ≡ B.byte_at bus.old }
    ensures ready { OnOk result (Opens (B.readies bus.new) address size) }
{
    if size == 0 {
        return Ok(());
    }
    let first = address / 1024;
    let last = (address + size - 1) / 1024;
    bus.make_ready(first)?;
    if last != first {
        bus.make_ready(last)?;
    }
    Ok(())
}
