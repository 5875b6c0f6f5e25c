//! Reading fields from the front of a slice of bytes.
ghost use Rattle.std.specs.Prelude.{◌≡◌, ◌<◌, ◌↔◌, ◌++◌, ◌∷◌, length, IfSome, IfNone, IsNone};
ghost use Rattle.std.specs.Int.{w16, w32, to_le_bytes};

use std::marker::Model;

/// Reads fields from the front of a slice of bytes, and takes no memory. Contracts see the bytes
/// that are left.
///
/// Numbers are little-endian. A call answers None exactly where fewer bytes are left than it
/// takes, and then the cursor is unchanged.
#[derive(Drop)]
pub struct Cursor<'a> {
    rest: &'a [u8],
}

impl<'a> Model for Cursor<'a> {
    ghost use Rattle.std.specs.Prelude.{ℕ, List};

    ghost Value = { List ℕ };

    ghost view = { λ c. c.rest.now };
}

impl<'a> Cursor<'a> {
    /// A cursor at the first of these bytes.
    pub fn new(bytes: &'a [u8]) -> Self
        ensures { result ≡ bytes.now }
    {
        Cursor { rest: bytes }
    }

    /// How many bytes are left.
    pub fn left(&self) -> usize
        ensures { result ≡ length self.now }
    {
        self.rest.len()
    }

    /// Takes one byte.
    pub fn take_u8(&mut self) -> Option<u8>
        ensures short { IsNone result ↔ (length self.old < 1) }
        ensures none { IfNone result (self.new ≡ self.old) }
        ensures some { IfSome result (λ x. self.old ≡ x ∷ self.new) }
    {
        let (first, rest) = self.rest.split_first()?;
        self.rest = rest;
        Some(*first)
    }

    /// Takes two bytes, as a number with its lowest byte first.
    pub fn take_u16(&mut self) -> Option<u16>
        ensures short { IsNone result ↔ (length self.old < 2) }
        ensures none { IfNone result (self.new ≡ self.old) }
        ensures some { IfSome result (λ x. self.old ≡ to_le_bytes w16 x ++ self.new) }
    {
        let bytes = self.take(2)?;
        Some(u16::from_le_bytes([bytes[0], bytes[1]]))
    }

    /// Takes four bytes, as a number with its lowest byte first.
    pub fn take_u32(&mut self) -> Option<u32>
        ensures short { IsNone result ↔ (length self.old < 4) }
        ensures none { IfNone result (self.new ≡ self.old) }
        ensures some { IfSome result (λ x. self.old ≡ to_le_bytes w32 x ++ self.new) }
    {
        let bytes = self.take(4)?;
        Some(u32::from_le_bytes([bytes[0], bytes[1], bytes[2], bytes[3]]))
    }

    /// Takes `n` bytes as they stand. With `n` 0 they are none, and there is always an answer.
    pub fn take(&mut self, n: usize) -> Option<&'a [u8]>
        ensures short { IsNone result ↔ (length self.old < n) }
        ensures none { IfNone result (self.new ≡ self.old) }
        ensures some { IfSome result (λ bytes. self.old ≡ bytes.now ++ self.new) }
        ensures len { IfSome result (λ bytes. length bytes.now ≡ n) }
    {
        let (taken, rest) = self.rest.split_at_checked(n)?;
        self.rest = rest;
        Some(taken)
    }
}
