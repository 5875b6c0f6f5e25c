ghost use Rattle.std.specs.Prelude.{◌≡◌, Some};
ghost use Rattle.elf_image.specs.declared.stop.ElfStop.TheVariants.{Memory};
ghost use Rattle.elf_image.specs.Text.{elf_text};

use std::alloc::AllocError;
use std::fmt;

/// Why a file isn't loaded: the first of fifteen tests that it fails, in this order, or want of memory. The fields are
/// those of ELF32; a load header is a program header of type 1, and its four tests come before those of the next.
#[derive(Clone, Copy, Debug, PartialEq, Eq)]
pub enum ElfStop {
    /// The file has fewer than 52 bytes.
    Short,
    /// Bytes 0 to 3 aren't 7f454c46.
    Magic,
    /// Byte 4 isn't 1, the class of 32 bits.
    Class,
    /// Byte 5 isn't 1, little-endian.
    Order,
    /// Byte 6 or e_version isn't 1.
    Version,
    /// e_type isn't 2, an executable file.
    FileType,
    /// e_machine isn't 243, RISC-V.
    Machine,
    /// There are program headers, and e_phentsize isn't 32.
    HeaderSize,
    /// There are more than 64 program headers.
    TooManyHeaders,
    /// The program headers don't end within the file.
    HeaderRange,
    /// The file bytes of a load header don't end within the file.
    FileRange,
    /// A load header has more file bytes than memory bytes.
    SizeOrder,
    /// The memory bytes of a load header end past 0x0FFFFC00.
    AddressRange,
    /// The memory bytes of a load header meet those of an earlier one.
    Overlap,
    /// e_entry is no multiple of 4 below 0x0FFFFC00.
    Entry,
    /// Want of memory.
    Memory,
}

impl From<AllocError> for ElfStop {
    ghost from_gives = { λ _ stop. stop ≡ Memory };

    fn from(_error: AllocError) -> ElfStop {
        ElfStop::Memory
    }
}

/// The number of the test, 1 to 15 in the order of the tests, and its text; nothing for want of memory.
impl fmt::Display for ElfStop {
    ghost output = { λ stop. Some (elf_text stop) };

    fn fmt<W: fmt::Write>(&self, f: &mut fmt::Formatter<W>) -> fmt::Result {
        f.write_str(match *self {
            ElfStop::Short => "1 short",
            ElfStop::Magic => "2 magic",
            ElfStop::Class => "3 class",
            ElfStop::Order => "4 order",
            ElfStop::Version => "5 version",
            ElfStop::FileType => "6 type",
            ElfStop::Machine => "7 machine",
            ElfStop::HeaderSize => "8 header-size",
            ElfStop::TooManyHeaders => "9 too-many-headers",
            ElfStop::HeaderRange => "10 header-range",
            ElfStop::FileRange => "11 file-range",
            ElfStop::SizeOrder => "12 size-order",
            ElfStop::AddressRange => "13 address-range",
            ElfStop::Overlap => "14 overlap",
            ElfStop::Entry => "15 entry",
            ElfStop::Memory => "",
        })
    }
}
