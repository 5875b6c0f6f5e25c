//! The fields of a word: registers and immediates (RISC-V Unprivileged ISA, RV32I 2.2 and 2.3).
ghost use Rattle.std.specs.Prelude.{◌≡◌, ◌^◌, ◌<◌, ◌*◌, IsTrue};
ghost use Rattle.rv_isa.specs.Words.{twos_complement};
ghost use Rattle.rv_isa.specs.Rows.{bits, imm_i, imm_s, imm_b, imm_u, imm_j};
ghost use Rattle.rv_isa.specs.Encoding.{in_signed, is_even, is_upper};

// `count` bits of a word, from bit `low` on.
pub(crate) fn field(word: u32, low: u32, count: u32) -> u32
    requires low_in { low < 32 }
    requires count_in { count < 32 }
    ensures value { result ≡ bits low count word }
    ensures bound { result < 2 ^ count }
{
    (word >> low) % (1 << count)
}

// A number below twice `half`, in two's complement.
fn extended(value: u32, half: u32) -> i32
    requires half_in { half < 2 ^ 30 }
    requires value_in { value < 2 * half }
    ensures { result ≡ twos_complement half value }
{
    if value < half {
        value as i32
    } else {
        value as i32 - (2 * half) as i32
    }
}

pub(crate) fn register(word: u32, low: u32) -> u8
    requires { low < 32 }
    ensures value { result ≡ bits low 5 word }
    ensures bound { result < 32 }
{
    field(word, low, 5) as u8
}

pub(crate) fn immediate_i(word: u32) -> i32
    ensures value { result ≡ imm_i word }
    ensures range { IsTrue (in_signed (2 ^ 11) result) }
{
    extended(field(word, 20, 12), 1 << 11)
}

pub(crate) fn immediate_s(word: u32) -> i32
    ensures value { result ≡ imm_s word }
    ensures range { IsTrue (in_signed (2 ^ 11) result) }
{
    extended(field(word, 25, 7) * 32 + field(word, 7, 5), 1 << 11)
}

pub(crate) fn immediate_b(word: u32) -> i32
    ensures value { result ≡ imm_b word }
    ensures range { IsTrue (in_signed (2 ^ 12) result) }
    ensures even { IsTrue (is_even result) }
{
    extended(
        field(word, 31, 1) * 4096
            + field(word, 7, 1) * 2048
            + field(word, 25, 6) * 32
            + field(word, 8, 4) * 2,
        1 << 12,
    )
}

pub(crate) fn immediate_u(word: u32) -> u32
    ensures value { result ≡ imm_u word }
    ensures range { IsTrue (is_upper result) }
{
    field(word, 12, 20) * 4096
}

pub(crate) fn immediate_j(word: u32) -> i32
    ensures value { result ≡ imm_j word }
    ensures range { IsTrue (in_signed (2 ^ 20) result) }
    ensures even { IsTrue (is_even result) }
{
    extended(
        field(word, 31, 1) * 1_048_576
            + field(word, 12, 8) * 4096
            + field(word, 20, 1) * 2048
            + field(word, 21, 10) * 2,
        1 << 20,
    )
}
