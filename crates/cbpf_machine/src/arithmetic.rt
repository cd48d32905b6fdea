//! Arithmetic and comparisons.

ghost use Rattle.std.specs.Prelude.{◌≡◌};
ghost use Rattle.cbpf_machine.specs.Turn as spec;

use cbpf_code::{AluOp, Cond};

/// Arithmetic on the accumulator; `None` for a division by 0.
#[inline(always)]
pub(crate) fn alu(op: AluOp, a: u32, n: u32) -> Option<u32>
    ensures { result ≡ spec.alu op a n }
{
    match op {
        AluOp::Add => Some(a.wrapping_add(n)),
        AluOp::Sub => Some(a.wrapping_sub(n)),
        AluOp::Mul => Some(a.wrapping_mul(n)),
        AluOp::Div => if n == 0 { None } else { Some(a / n) },
        AluOp::Mod => if n == 0 { None } else { Some(a % n) },
        AluOp::Or => Some(a | n),
        AluOp::And => Some(a & n),
        AluOp::Xor => Some(a ^ n),
        AluOp::Lsh => Some(if n < 32 { a << n } else { 0 }),
        AluOp::Rsh => Some(if n < 32 { a >> n } else { 0 }),
    }
}

#[inline(always)]
pub(crate) fn negated(a: u32) -> u32
    ensures { result ≡ spec.negated a }
{
    a.wrapping_neg()
}

/// Whether the accumulator compares true to the operand, both without a sign.
#[inline(always)]
pub(crate) fn compares(cond: Cond, a: u32, n: u32) -> bool
    ensures { result ≡ spec.compares cond a n }
{
    match cond {
        Cond::Eq => a == n,
        Cond::Gt => a > n,
        Cond::Ge => a >= n,
        Cond::Bits => a & n != 0,
    }
}
