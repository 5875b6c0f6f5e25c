//! The generator: a guest whose run is as long as is wanted, and its input words.
ghost use Rattle.std.specs.Prelude.{◌≡◌, ◌≤◌, ◌<◌, ◌^◌, IfOk};
ghost use Rattle.guest_gen.specs.Assembly.{IsAssembled};
ghost use Rattle.guest_gen.specs.Generator as spec;

use crate::assembling::assemble;
use crate::instructions::{add, addi, bne, ecall, lui, lw, mul, slli, srli, sw};
use crate::line::GuestLine;
use byte_cursor::{ByteList, WordList};
use std::alloc::{AllocError, Global};

/// The most input words that are generated.
pub const SIZE_MAX: u32 = 1_000_000;

// The multiplier and the increment of the states.
const MULTIPLIER: u64 = 6_364_136_223_846_793_005;

const INCREMENT: u64 = 1_442_695_040_888_963_407;

/// The ELF file of the generator's guest for so many input words, and these words, which follow from the number. The guest
/// mixes the words into four bytes, commits them and halts with 0. An AllocError is want of memory.
pub fn generate(alloc: Global, number: u64, size: u32) -> Result<(ByteList, WordList), AllocError>
    requires some { 1 ≤ size }
    requires few { size ≤ SIZE_MAX }
    ensures file { IfOk result (λ made. IsAssembled (spec.generated_guest size) made.0.items) }
    ensures words { IfOk result (λ made. made.1.items ≡ spec.input_words number size) }
{
    generated_guest_is_valid();
    let file = assemble(alloc, &generated_guest(size))?;
    let words = input_words(alloc, number, size)?;
    Ok((file, words))
}

/// The lines of the generator's guest are valid, at each size.
pub fn generated_guest_is_valid()
    ensures { spec.GeneratedGuestIsValid }
{}

// The guest's lines.
fn generated_guest(size: u32) -> [GuestLine; 27]
    requires { size ≤ SIZE_MAX }
    ensures { result ≡ spec.generated_guest size }
{
    [
        lui(8, 0x100),
        lui(18, 0x200),
        lui(9, high_part(size)),
        addi(9, 9, low_part(size)),
        addi(19, 0, 0),
        addi(20, 0, 33),
        addi(17, 0, 1),
        addi(10, 8, 0),
        addi(11, 0, 1),
        ecall(),
        lw(5, 0, 8),
        mul(19, 19, 20),
        add(19, 19, 5),
        srli(6, 5, 20),
        slli(6, 6, 2),
        add(6, 6, 18),
        sw(19, 0, 6),
        addi(9, 9, -1),
        bne(9, 0, -48),
        sw(19, 0, 8),
        addi(17, 0, 2),
        addi(10, 8, 0),
        addi(11, 0, 4),
        ecall(),
        addi(17, 0, 0),
        addi(10, 0, 0),
        ecall(),
    ]
}

// The low 12 bits of the size, as a signed number.
fn low_part(size: u32) -> i32
    requires { size ≤ SIZE_MAX }
    ensures { result ≡ spec.low_part size }
{
    let bits = (size % 4096) as i32;
    if bits < 2048 { bits } else { bits - 4096 }
}

// What is left of the size, in units of 4,096.
fn high_part(size: u32) -> u32
    requires { size ≤ SIZE_MAX }
    ensures value { result ≡ spec.high_part size }
    ensures small { result < 2 ^ 20 }
{
    let left = size as i32 - low_part(size);
    (left / 4096).cast_unsigned()
}

// The state after a state.
fn next_state(state: u64) -> u64
    ensures { result ≡ spec.next_state state }
{
    state.wrapping_mul(MULTIPLIER).wrapping_add(INCREMENT)
}

// The input words.
fn input_words(alloc: Global, number: u64, size: u32) -> Result<WordList, AllocError>
    ensures { IfOk result (λ words. words.items ≡ spec.input_words number size) }
{
    let mut words = WordList::new(alloc);
    let mut state = number;
    for _index in 0..size {
        state = next_state(state);
        words.push((state >> 32) as u32)?;
    }
    Ok(words)
}
