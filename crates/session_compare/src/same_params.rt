//! Whether two calls brought the same parameters.
ghost use Rattle.std.specs.Prelude.{◌≡◌, ◌↔◌, IsTrue};

use ta_params::{CopiedParams, GpParam, Login};

/// Both parameters are the same.
fn is_same_param(one: &GpParam, other: &GpParam) -> bool
    ensures { IsTrue result ↔ (one.now ≡ other.now) }
{
    match (one, other) {
        (GpParam::Empty, GpParam::Empty) => true,
        (
            GpParam::Value { way, a, b },
            GpParam::Value {
                way: other_way,
                a: other_a,
                b: other_b,
            },
        ) => way == other_way && a == other_a && b == other_b,
        (
            GpParam::Memref { way, buf, size },
            GpParam::Memref {
                way: other_way,
                buf: other_buf,
                size: other_size,
            },
        ) => way == other_way && buf.bytes() == other_buf.bytes() && size == other_size,
        _ => false,
    }
}

/// All four are the same.
pub(crate) fn are_same_params(one: &CopiedParams, other: &CopiedParams) -> bool
    ensures { IsTrue result ↔ (one.now ≡ other.now) }
{
    is_same_param(&one.p0, &other.p0)
        && is_same_param(&one.p1, &other.p1)
        && is_same_param(&one.p2, &other.p2)
        && is_same_param(&one.p3, &other.p3)
}

/// Both logins are the same.
pub(crate) fn is_same_login(one: &Login, other: &Login) -> bool
    ensures { IsTrue result ↔ (one.now ≡ other.now) }
{
    one == other
}
