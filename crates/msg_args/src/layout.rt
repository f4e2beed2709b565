//! Where the parts of an argument at an address stand, by `struct optee_msg_arg` of `optee_msg.h`.

ghost use Rattle.std.specs.Prelude.{◌≡◌, ◌+◌, ◌<◌, ◌^◌};
ghost use Rattle.msg_args.specs.Layout.{origin_at, p_at, param_place, q_at, ret_at, session_at};

/// The bytes of a head.
pub const HEAD_LEN: u64 = 32;

/// The bytes of a parameter.
pub const PARAM_LEN: u64 = 32;

/// Where the session's number stands.
pub fn session_at(arg: u64) -> u64
    requires { arg + 224 < 2 ^ 64 }
    ensures { result ≡ session_at arg }
{
    arg + 8
}

/// Where the result stands.
pub fn ret_at(arg: u64) -> u64
    requires { arg + 224 < 2 ^ 64 }
    ensures { result ≡ ret_at arg }
{
    arg + 20
}

/// Where it stands where the result comes from.
pub fn origin_at(arg: u64) -> u64
    requires { arg + 224 < 2 ^ 64 }
    ensures { result ≡ origin_at arg }
{
    arg + 24
}

/// Where the parameter of this number stands, counted from 0.
pub fn param_place(arg: u64, number: u64) -> u64
    requires whole { arg + 224 < 2 ^ 64 }
    requires number { number < 6 }
    ensures { result ≡ param_place arg number }
{
    arg + HEAD_LEN + PARAM_LEN * number
}

/// Where the number p of this parameter stands.
pub fn p_at(arg: u64, number: u64) -> u64
    requires whole { arg + 224 < 2 ^ 64 }
    requires number { number < 6 }
    ensures { result ≡ p_at arg number }
{
    param_place(arg, number) + 8
}

/// Where the number q of this parameter stands.
pub fn q_at(arg: u64, number: u64) -> u64
    requires whole { arg + 224 < 2 ^ 64 }
    requires number { number < 6 }
    ensures { result ≡ q_at arg number }
{
    param_place(arg, number) + 16
}
