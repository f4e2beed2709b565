//! What the parameters of an argument say.

ghost use Rattle.std.specs.Prelude.{◌≡◌, ◌*◌, ◌≤◌, None, Some, MatchOption, length};
ghost use Rattle.std.specs.Option.{option_map};
ghost use Rattle.kernel_model.specs.Argument.{has_no_meta, invocation, octets};
ghost use Rattle.kernel_model.specs.Argument.{is_rmem, params_in, registering, unregistering};
ghost use Rattle.msg_args.specs.Attribute.{is_tmem};

use arrayvec::ArrayVec;
use msg_args::{MsgParam, ParamKind, read_params};

/// The parameters in so many pieces of 32 bytes, where each has a valid attribute.
pub(crate) fn params_in(count: u32, bytes: &[u8]) -> Option<ArrayVec<MsgParam, 6>>
    requires few { count ≤ 6 }
    requires whole { length bytes.now ≡ 32 * count }
    ensures { option_map (λ params. params.items) result ≡ params_in count bytes.now }
{
    read_params(count, bytes).ok()
}

/// None of them is META.
pub(crate) fn has_no_meta(params: &[MsgParam]) -> bool
    ensures { result ≡ has_no_meta params.now }
{
    params.iter().all(|param| !param.meta)
}

/// The 16 octets from p on.
pub(crate) fn octets(param: &MsgParam) -> [u8; 16]
    ensures { result ≡ octets param.now }
{
    let mut octets = [0; 16];
    octets[..8].copy_from_slice(&param.p.to_le_bytes());
    octets[8..].copy_from_slice(&param.q.to_le_bytes());
    octets
}

/// An invoke has up to four.
pub(crate) fn invocation(params: &[MsgParam]) -> Option<&[MsgParam]>
    ensures { MatchOption result
        (invocation params.now ≡ None)
        (λ invoked. (invocation params.now ≡ Some invoked.now) × (length invoked.now ≤ 4)) }
{
    if params.len() > 4 || !has_no_meta(params) {
        return None;
    }
    Some(params)
}

/// A register has a chain of page lists.
pub(crate) fn registering(params: &[MsgParam]) -> Option<MsgParam>
    ensures { result ≡ registering params.now }
{
    let [param] = params else {
        return None;
    };
    if !is_tmem(param.kind) || !param.noncontig {
        return None;
    }
    Some(*param)
}

/// An unregister has registered memory.
pub(crate) fn unregistering(params: &[MsgParam]) -> Option<MsgParam>
    ensures { result ≡ unregistering params.now }
{
    let [param] = params else {
        return None;
    };
    if !is_rmem(param.kind) {
        return None;
    }
    Some(*param)
}

/// Memory that the argument names by its address.
fn is_tmem(kind: ParamKind) -> bool
    ensures { result ≡ is_tmem kind }
{
    matches!(
        kind,
        ParamKind::TmemIn | ParamKind::TmemOut | ParamKind::TmemInout
    )
}

/// Memory that the argument names by its cookie.
fn is_rmem(kind: ParamKind) -> bool
    ensures { result ≡ is_rmem kind }
{
    matches!(
        kind,
        ParamKind::RmemIn | ParamKind::RmemOut | ParamKind::RmemInout
    )
}
