ghost use Rattle.std.specs.Prelude.{◌≡◌, ◌<◌, ◌^◌};
ghost use Rattle.rv_isa.specs.Encoding.{in_signed, is_even, takes_immediate, valid};

/// An operation on two words (RISC-V Unprivileged ISA, RV32I 2.4 and the M extension).
#[derive(Clone, Copy, Debug, PartialEq, Eq)]
pub enum AluOp {
    Add,
    Sub,
    Sll,
    Slt,
    Sltu,
    Xor,
    Srl,
    Sra,
    Or,
    And,
    Mul,
    Mulh,
    Mulhsu,
    Mulhu,
    Div,
    Divu,
    Rem,
    Remu,
}

/// A comparison of two words (RISC-V Unprivileged ISA, RV32I 2.5).
#[derive(Clone, Copy, Debug, PartialEq, Eq)]
pub enum BranchOp {
    Beq,
    Bne,
    Blt,
    Bge,
    Bltu,
    Bgeu,
}

/// What a load reads, and how it is extended to a word (RISC-V Unprivileged ISA, RV32I 2.6).
#[derive(Clone, Copy, Debug, PartialEq, Eq)]
pub enum LoadOp {
    Lb,
    Lh,
    Lw,
    Lbu,
    Lhu,
}

/// What a store writes (RISC-V Unprivileged ISA, RV32I 2.6).
#[derive(Clone, Copy, Debug, PartialEq, Eq)]
pub enum StoreOp {
    Sb,
    Sh,
    Sw,
}

/// One instruction. Register numbers are below 32. The immediate of `Lui` and `Auipc` is a word whose
/// low 12 bits are zero; the other immediates and the offsets are signed numbers of bytes.
#[derive(Clone, Copy, Debug, PartialEq, Eq)]
pub enum Instr {
    Lui {
        rd: u8,
        imm: u32,
    },
    Auipc {
        rd: u8,
        imm: u32,
    },
    Jal {
        rd: u8,
        offset: i32,
    },
    Jalr {
        rd: u8,
        rs1: u8,
        imm: i32,
    },
    Branch {
        op: BranchOp,
        rs1: u8,
        rs2: u8,
        offset: i32,
    },
    Load {
        op: LoadOp,
        rd: u8,
        rs1: u8,
        imm: i32,
    },
    Store {
        op: StoreOp,
        rs1: u8,
        rs2: u8,
        imm: i32,
    },
    AluImm {
        op: AluOp,
        rd: u8,
        rs1: u8,
        imm: i32,
    },
    Alu {
        op: AluOp,
        rd: u8,
        rs1: u8,
        rs2: u8,
    },
    Fence,
    Ecall,
    Ebreak,
}

// Whether a number is from -half to half - 1.
fn in_signed(number: i32, half: u32) -> bool
    requires { half < 2 ^ 31 }
    ensures { result ≡ in_signed half number }
{
    let half = half as i32;
    -half <= number && number < half
}

fn is_even(offset: i32) -> bool
    ensures { result ≡ is_even offset }
{
    offset.cast_unsigned() % 2 == 0
}

impl AluOp {
    // Whether the operation has a row with this immediate.
    fn takes_immediate(self, imm: i32) -> bool
        ensures { result ≡ takes_immediate self imm }
    {
        match self {
            AluOp::Add | AluOp::Slt | AluOp::Sltu | AluOp::Xor | AluOp::Or | AluOp::And =>
                in_signed(imm, 1 << 11),
            AluOp::Sll | AluOp::Srl | AluOp::Sra => 0 <= imm && imm < 32,
            _ => false,
        }
    }
}

impl Instr {
    /// Whether the instruction has a word, which is what `encode` requires: each register number is below 32, and the
    /// immediate is in the range of its format (RISC-V Unprivileged ISA, RV32I 2.3 and 2.4). An immediate of 12 bits is
    /// from -2048 to 2047, the amount of a shift from 0 to 31; an offset is an even number of bytes, a branch's from
    /// -4096 to 4094 and a jump's from -1048576 to 1048574; the low 12 bits of an upper immediate are zero.
    pub fn is_valid(&self) -> bool
        ensures { result ≡ valid self.now }
    {
        match *self {
            Instr::Lui { rd, imm } | Instr::Auipc { rd, imm } => rd < 32 && imm % (1 << 12) == 0,
            Instr::Jal { rd, offset } => rd < 32 && in_signed(offset, 1 << 20) && is_even(offset),
            Instr::Jalr { rd, rs1, imm } => rd < 32 && rs1 < 32 && in_signed(imm, 1 << 11),
            Instr::Load { rd, rs1, imm, .. } => rd < 32 && rs1 < 32 && in_signed(imm, 1 << 11),
            Instr::Branch {
                rs1,
                rs2,
                offset,
                ..
            } => rs1 < 32 && rs2 < 32 && in_signed(offset, 1 << 12) && is_even(offset),
            Instr::Store { rs1, rs2, imm, .. } => rs1 < 32 && rs2 < 32 && in_signed(imm, 1 << 11),
            Instr::AluImm { op, rd, rs1, imm } => rd < 32 && rs1 < 32 && op.takes_immediate(imm),
            Instr::Alu { rd, rs1, rs2, .. } => rd < 32 && rs1 < 32 && rs2 < 32,
            Instr::Fence | Instr::Ecall | Instr::Ebreak => true,
        }
    }
}
