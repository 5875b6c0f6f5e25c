//! What operations and comparisons of words compute.
ghost use Rattle.std.specs.Prelude.{◌≡◌, ◌*ℤ◌, ◌/◌, ◌^◌, pos};
ghost use Rattle.std.specs.Int.{w64, cast_unsigned};
ghost use Rattle.rv_isa.specs.Words.{signed_of};
ghost use Rattle.rv_isa.specs.Arithmetic.{alu_of, taken_of};

use crate::instr::{AluOp, BranchOp};

// The high word of a product of signed words.
fn high_signed(a: u32, b: u32) -> u32
    ensures { result ≡ cast_unsigned w64 (signed_of a *ℤ signed_of b) / 2 ^ 32 }
{
    let product = i64::from(a.cast_signed()) * i64::from(b.cast_signed());
    (product.cast_unsigned() >> 32) as u32
}

// The high word of a product of a signed word and an unsigned one.
fn high_mixed(a: u32, b: u32) -> u32
    ensures { result ≡ cast_unsigned w64 (signed_of a *ℤ pos b) / 2 ^ 32 }
{
    let product = i64::from(a.cast_signed()) * i64::from(b);
    (product.cast_unsigned() >> 32) as u32
}

/// The word that an operation puts into rd, from rs1 and rs2 or the immediate (RISC-V Unprivileged ISA, RV32I 2.4
/// and the M extension). No division faults: by 0 the quotient has all bits set and the remainder is rs1.
pub fn alu(op: AluOp, a: u32, b: u32) -> u32
    ensures { result ≡ alu_of op a b }
{
    let (signed_a, signed_b) = (a.cast_signed(), b.cast_signed());
    match op {
        AluOp::Add => a.wrapping_add(b),
        AluOp::Sub => a.wrapping_sub(b),
        AluOp::Sll => a.wrapping_shl(b),
        AluOp::Slt => u32::from(signed_a < signed_b),
        AluOp::Sltu => u32::from(a < b),
        AluOp::Xor => a ^ b,
        AluOp::Srl => a.wrapping_shr(b),
        AluOp::Sra => (signed_a >> (b % 32)).cast_unsigned(),
        AluOp::Or => a | b,
        AluOp::And => a & b,
        AluOp::Mul => a.wrapping_mul(b),
        AluOp::Mulh => high_signed(a, b),
        AluOp::Mulhsu => high_mixed(a, b),
        AluOp::Mulhu => ((a as u64 * b as u64) >> 32) as u32,
        AluOp::Div => if b == 0 {
            u32::MAX
        } else {
            signed_a.wrapping_div(signed_b).cast_unsigned()
        },
        AluOp::Divu => if b == 0 { u32::MAX } else { a / b },
        AluOp::Rem => if b == 0 {
            a
        } else {
            signed_a.wrapping_rem(signed_b).cast_unsigned()
        },
        AluOp::Remu => if b == 0 { a } else { a % b },
    }
}

/// Whether a branch is taken, from rs1 and rs2 (RISC-V Unprivileged ISA, RV32I 2.5).
pub fn taken(op: BranchOp, a: u32, b: u32) -> bool
    ensures { result ≡ taken_of op a b }
{
    match op {
        BranchOp::Beq => a == b,
        BranchOp::Bne => a != b,
        BranchOp::Blt => a.cast_signed() < b.cast_signed(),
        BranchOp::Bge => a.cast_signed() >= b.cast_signed(),
        BranchOp::Bltu => a < b,
        BranchOp::Bgeu => a >= b,
    }
}
