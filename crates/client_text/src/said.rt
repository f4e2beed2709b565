//! What the line of a call says, by its words.

ghost use Rattle.std.specs.Prelude.{◌≡◌, ◌∷◌, [], if◌then◌else◌, is_some, map, true};
ghost use Rattle.std.specs.List.{list_all};
ghost use Rattle.std.specs.Option.{option_copied, option_map, option_map_or};
ghost use Rattle.client_text.specs.Forms.{cancel_number, is_letter, is_name, param_of, small};
ghost use Rattle.client_text.specs.Rules.{invoke_words, is_two_or_more, open_words};
ghost use Rattle.client_text.specs.declared.script.ScriptCall.TheVariants as call;
ghost use Rattle.trace_text.specs.Forms.{hexadecimal, is_decimal, is_hexadecimal, is_uuid, uuid};
ghost use Rattle.trace_text.specs.Judging.{Judged};
ghost use Rattle.trace_text.specs.Limits.{is_within};

use crate::param::{have_lengths, params_of};
use crate::script::ScriptCall;
use base::Sequence;
use std::alloc::Global;
use text_lines::Words;
use trace_text::limits::is_within;
use trace_text::word::{short_hexadecimal, uuid};
use trace_text::{BadKind, LineFault, number};
use uuid::Uuid;

/// The most letters of a name.
const MAX_NAME: usize = 16;

/// The last RPC return before whose answer a call can be cancelled.
const MAX_CANCEL: u32 = 1000;

/// What the word that cancels a call begins with.
const CANCEL: &[u8] = b"cancel:";

/// Whether a byte is a lower-case letter.
fn is_letter(byte: u8) -> bool
    ensures { result ≡ is_letter byte }
{
    b'a' <= byte && byte <= b'z'
}

/// Whether a word has letters alone.
fn are_letters(word: &[u8]) -> bool
    ensures { result ≡ list_all is_letter word.now }
{
    word.iter().all(|byte| is_letter(*byte))
}

/// Whether a word has 1 to 16 lower-case letters, and nothing else.
#[tactic(auto, unfolding(crate::specs::Forms::is_name))]
fn is_name(word: &[u8]) -> bool
    ensures { result ≡ is_name word.now }
{
    1 <= word.len() && word.len() <= MAX_NAME && are_letters(word)
}

/// The name of a session.
pub(crate) fn name_of(alloc: Global, word: &[u8]) -> Result<Sequence<u8>, LineFault>
    ensures { Judged (λ name. name) result ((BadKind.Number, is_name word.now) ∷ []) word.now }
{
    if !is_name(word) {
        return Err(LineFault::Broken(BadKind::Number));
    }
    Ok(Sequence::of(word.to_vec(alloc)?))
}

/// The number behind `cancel:`, in a word that begins so.
#[tactic(auto, unfolding(crate::specs::Forms::cancel_number))]
pub(crate) fn cancel_number(word: &[u8]) -> Option<&[u8]>
    ensures { option_map (λ number. number.now) result ≡ cancel_number word.now }
{
    if word.starts_with(CANCEL) {
        Some(&word[CANCEL.len()..])
    } else {
        None
    }
}

/// How many words stand before the parameters of an invoke, which has this number to cancel it.
pub(crate) fn before_params(cancel: Option<&[u8]>) -> usize
    ensures { result ≡ (if is_some (option_copied cancel.entry) then 4 else 3) }
{
    if cancel.is_some() { 4 } else { 3 }
}

/// Whether a word is a number from 2 on.
pub(crate) fn is_two_or_more(word: &[u8]) -> bool
    ensures { result ≡ is_two_or_more word.now }
{
    match number(word) {
        Ok(number) => 2 <= number,
        Err(_) => false,
    }
}

/// The application of a word.
fn app_of(word: &[u8]) -> Result<Uuid, LineFault>
    ensures { Judged (λ id. id) result ((BadKind.Uuid, is_uuid word.now) ∷ []) (uuid word.now) }
{
    match uuid(word) {
        Some(uuid) => Ok(uuid),
        None => Err(LineFault::Broken(BadKind::Uuid)),
    }
}

/// The function of a word.
#[tactic(auto, unfolding(trace_text::specs::Forms::is_hexadecimal, trace_text::specs::Forms::hexadecimal, trace_text::specs::Reading::hexadecimal_at))]
fn func_of(word: &[u8]) -> Result<u32, LineFault>
    ensures { Judged (λ func. func) result ((BadKind.Number, is_hexadecimal 8 word.now) ∷ []) (hexadecimal word.now) }
{
    match short_hexadecimal(word) {
        Some(func) => Ok(func),
        None => Err(LineFault::Broken(BadKind::Number)),
    }
}

/// The number by which a call is cancelled, where `u32::MAX` stands for all numbers above it.
fn cancel_of(word: Option<&[u8]>) -> Result<Option<u32>, LineFault>
    ensures { Judged (λ after. after) result
        ((BadKind.Number, option_map_or is_decimal (option_copied word.entry) true) ∷ [])
        (option_map small (option_copied word.entry)) }
{
    match word {
        Some(word) => Ok(Some(number(word)?)),
        None => Ok(None),
    }
}

/// Whether a call isn't cancelled, or before the answer to a return that can be named.
fn can_be_cancelled(after: Option<u32>) -> bool
    ensures { result ≡ option_map_or (λ number. is_within 1 1000 number) after true }
{
    match after {
        Some(number) => is_within(1, MAX_CANCEL, number),
        None => true,
    }
}

/// Reads the words of a line `open`, but for whether its name is new.
pub(crate) fn open_of(
    alloc: Global,
    name: &[u8],
    id: &[u8],
    params: Words,
) -> Result<ScriptCall, LineFault>
    ensures { Judged (λ c. c) result (open_words name.now id.now params.entry)
        (call.Open name.now (uuid id.now) (map param_of params.entry)) }
{
    let name = name_of(alloc, name)?;
    let params = params_of(alloc, params)?;
    let uuid = app_of(id)?;
    if !have_lengths(params.as_slice()) {
        return Err(LineFault::Broken(BadKind::Range));
    }
    Ok(ScriptCall::Open {
        name,
        uuid,
        params: Sequence::of(params),
    })
}

/// Reads the words of a line `invoke`, but for whether its name was opened.
pub(crate) fn invoke_of(
    alloc: Global,
    name: &[u8],
    func: &[u8],
    cancel: Option<&[u8]>,
    params: Words,
) -> Result<ScriptCall, LineFault>
    ensures { Judged (λ c. c) result (invoke_words name.now func.now (option_copied cancel.entry) params.entry)
        (call.Invoke name.now (hexadecimal func.now) (option_map small (option_copied cancel.entry)) (map param_of params.entry)) }
{
    let name = name_of(alloc, name)?;
    let func = func_of(func)?;
    let cancel_after = cancel_of(cancel)?;
    let params = params_of(alloc, params)?;
    if !can_be_cancelled(cancel_after) {
        return Err(LineFault::Broken(BadKind::Range));
    }
    if !have_lengths(params.as_slice()) {
        return Err(LineFault::Broken(BadKind::Range));
    }
    Ok(ScriptCall::Invoke {
        name,
        func,
        cancel_after,
        params: Sequence::of(params),
    })
}
