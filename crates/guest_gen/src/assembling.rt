ghost use Rattle.std.specs.Prelude.{◌≡◌, ◌≤◌, ◌*◌, ◌++◌, ℕ, List, length, IfOk, OnOk};
ghost use Rattle.std.specs.List.{flat_map};
ghost use Rattle.guest_gen.specs.Assembly.{file_header, load_header, word, AreValid, AreLines, IsAssembled};

use crate::line::GuestLine;
use byte_cursor::{ByteList, Out};
use std::alloc::{AllocError, Global};

// The file header, of an executable for RISC-V with 32 bits that begins at 0x1000, and one program header after it.
const FILE_HEADER: [u8; 52] = [
    0x7F, b'E', b'L', b'F', 1, 1, 1, 0, 0, 0, 0, 0, 0, 0, 0, 0, 2, 0, 243, 0, 1, 0, 0, 0, 0, 0x10,
    0, 0, 52, 0, 0, 0, 0, 0, 0, 0, 0, 0, 0, 0, 52, 0, 32, 0, 1, 0, 0, 0, 0, 0, 0, 0,
];

/// The ELF file of a guest whose code, these lines, stands at 0x1000 and begins there. There are 1 to 65,536 lines, each
/// valid.
pub fn assemble(alloc: Global, lines: &[GuestLine]) -> Result<ByteList, AllocError>
    requires some { 1 ≤ length lines.now }
    requires few { length lines.now ≤ 65536 }
    requires valid { AreValid lines.now }
    ensures { IfOk result (λ file. IsAssembled lines.now file.items) }
{
    let mut out = Out::new(alloc);
    out.put_all(&FILE_HEADER)?;
    put_load_header(&mut out, 4 * lines.len() as u32)?;
    put_lines(&mut out, lines)?;
    Ok(out.finish())
}

// Writes the load header of code of this size, which stands at 84 in the file.
fn put_load_header(out: &mut Out, size: u32) -> Result<(), AllocError>
    ensures { OnOk result (out.new ≡ out.old ++ load_header size) }
{
    put_words(out, &[1, 84, 0x1000, 0x1000, size, size, 7, 4])
}

// Writes words.
fn put_words(out: &mut Out, words: &[u32]) -> Result<(), AllocError>
    ensures { OnOk result (out.new ≡ out.old ++ flat_map word words.now) }
{
    for field in words {
        out.put_u32(*field)?;
    }
    Ok(())
}

// Writes the words of the lines.
fn put_lines(out: &mut Out, lines: &[GuestLine]) -> Result<(), AllocError>
    requires { AreValid lines.now }
    ensures { OnOk result
        ((words : List ℕ) × AreLines lines.now words × (out.new ≡ out.old ++ flat_map word words)) }
{
    for line in lines {
        out.put_u32(line.word())?;
    }
    Ok(())
}
