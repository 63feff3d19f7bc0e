// What MULH and LESSS compute (the standard, "Signed hundredths").
ghost use Rattle.std.specs.Prelude.{◌≡◌, ◌≤◌, ◌^◌, ◌*ℤ◌, unsigned_abs};
ghost use Rattle.machine.specs.Signed.{signed_value, register_of, Nearest, in_span, mulh, lesss};

// A register read as two's complement.
#[tactic(auto, unfolding(crate::specs::Signed::signed_value))]
fn signed_value(x: u32) -> i32
    ensures { result ≡ signed_value x }
{
    x.cast_signed()
}

// No product of two of them wraps.
fn product(b: u32, c: u32) -> i64
    ensures value { result ≡ signed_value b *ℤ signed_value c }
    ensures bound { unsigned_abs result ≤ 2 ^ 62 }
{
    i64::from(signed_value(b)) * i64::from(signed_value(c))
}

// Divided by 100, to nearest: division drops the remainder, so a half in the number's direction is added before.
fn rounded_hundredth(p: i64) -> i64
    requires { unsigned_abs p ≤ 2 ^ 62 }
    ensures { Nearest p result }
{
    if p < 0 {
        (p - 50) / 100
    } else {
        (p + 50) / 100
    }
}

// The number of the signed span nearest to it.
#[tactic(auto, unfolding(crate::specs::Signed::in_span))]
fn in_span(z: i64) -> i32
    ensures { result ≡ in_span z }
{
    z.clamp(i64::from(i32::MIN), i64::from(i32::MAX)) as i32
}

// Back into a register.
#[tactic(auto, unfolding(crate::specs::Signed::register_of))]
fn register_of(z: i32) -> u32
    ensures { result ≡ register_of z }
{
    z.cast_unsigned()
}

// MULH: b times c divided by 100. A call of its own: the loop over the entries of a list stays small without it.
#[inline(never)]
pub fn mulh(b: u32, c: u32) -> u32
    ensures { result ≡ mulh b c }
{
    register_of(in_span(rounded_hundredth(product(b, c))))
}

// LESSS: 1 if the first is below the second, else 0.
#[tactic(auto, unfolding(crate::specs::Signed::lesss))]
pub fn lesss(b: u32, c: u32) -> u32
    ensures { result ≡ lesss b c }
{
    u32::from(signed_value(b) < signed_value(c))
}
