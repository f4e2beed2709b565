ghost use Rattle.std.specs.Prelude.{◌≡◌, ◌%◌, ◌^◌, ◌≤◌, None, Some, MatchOption, length};
ghost use Rattle.kernel_model.specs.Argument.{is_name, octets, opening};
ghost use Rattle.new_calls.specs.Argument.{opening_of};

use crate::argument::{has_no_meta, octets};
use msg_args::{MsgParam, ParamKind};
use ta_params::Login;
use uuid::Uuid;

/// What an open's parameters say: it names the application and the client, and has up to four more.
#[derive(Drop)]
pub(crate) struct Wanted<'a> {
    pub uuid: Uuid,
    pub login: Login,
    pub params: &'a [MsgParam],
}

/// What they say: two names, and none of the others META.
pub(crate) fn opening(params: &[MsgParam]) -> Option<Wanted<'_>>
    requires { length params.now ≤ 6 }
    ensures { MatchOption result
        (opening params.now ≡ None)
        (λ wanted. (opening params.now ≡ Some (opening_of wanted)) × (length wanted.params.now ≤ 4)) }
{
    let [app, client, params @ ..] = params else {
        return None;
    };
    if !is_name(app) || !is_name(client) || !has_no_meta(params) {
        return None;
    }
    Some(Wanted {
        uuid: Uuid::from_bytes(octets(app)),
        login: login_of(client),
        params,
    })
}

/// The login has the client's octets, and its kind in the low 32 bits of s.
fn login_of(client: &MsgParam) -> Login
    ensures { result ≡ record { client = octets client.now; kind = client.now.s % 2 ^ 32 } }
{
    Login {
        client: octets(client),
        kind: (client.s & 0xffff_ffff) as u32,
    }
}

/// A parameter of an open that names the application or the client.
fn is_name(param: &MsgParam) -> bool
    ensures { result ≡ is_name param.now }
{
    param.meta && matches!(param.kind, ParamKind::ValueIn)
}
