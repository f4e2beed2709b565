//! A parameter, by its word.

ghost use Rattle.std.specs.Prelude.{◌≡◌, ◌∷◌, [], ◌&&◌, MatchOption, map};
ghost use Rattle.std.specs.List.{list_all};
ghost use Rattle.std.specs.Option.{option_copied, option_map};
ghost use Rattle.client_text.specs.Forms.{are_numbers, are_of_memory, fits_key, has_length, is_length, is_nothing, is_param, is_short, param_of, param_of_key, parts_of, small};
ghost use Rattle.client_text.specs.Judging.{IsKept, numbers_of, only_part, parts_left};
ghost use Rattle.text_lines.specs.Lines.{IsCutAt, Lacks};
ghost use Rattle.trace_text.specs.Forms.{bytes, hexadecimal};
ghost use Rattle.trace_text.specs.Judging.{Judged, Reads};
ghost use Rattle.trace_text.specs.Rules.{word};

use crate::param_key::ParamKey;
use crate::script::ScriptParam;
use base::Sequence;
use std::alloc::Global;
use text_lines::Words;
use trace_text::limits::is_within;
use trace_text::word::{bytes, short_hexadecimal};
use trace_text::{BadKind, LineFault, number};

/// The most bytes of a parameter.
const MAX_LENGTH: u32 = 65_536;

// ---- parts

/// What stands before the first colon of a word, and behind it.
fn split_colon(word: &[u8]) -> Option<(&[u8], &[u8])>
    ensures { MatchOption result (Lacks 58 word.now) (λ x. IsCutAt 58 word.now x.0.now x.1.now) }
{
    for (end, byte) in word.iter().enumerate() {
        if *byte == b':' {
            return Some((&word[..end], &word[end + 1..]));
        }
    }
    None
}

/// The first part of a word, and what stands behind its colon, if it has one.
fn first_part(word: &[u8]) -> (&[u8], Option<&[u8]>)
    ensures { parts_of word.now ≡ result.0.now ∷ parts_left (option_copied result.1) }
{
    match split_colon(word) {
        Some((part, behind)) => (part, Some(behind)),
        None => (word, None),
    }
}

/// The only part that is left.
#[tactic(auto, using(crate::proofs::Parts::not_only))]
fn only_part(behind: Option<&[u8]>) -> Option<&[u8]>
    ensures { option_map (λ part. part.now) result ≡ only_part (parts_left (option_copied behind.entry)) }
{
    let (part, others) = first_part(behind?);
    match others {
        None => Some(part),
        Some(_) => None,
    }
}

/// The numbers of two words.
#[tactic(auto, unfolding(trace_text::specs::Forms::is_hexadecimal, trace_text::specs::Forms::hexadecimal, trace_text::specs::Reading::hexadecimal_at))]
fn two_numbers(a: &[u8], b: &[u8]) -> Option<(u32, u32)>
    ensures { Reads result (is_short a.now && is_short b.now) (hexadecimal a.now, hexadecimal b.now) }
{
    Some((short_hexadecimal(a)?, short_hexadecimal(b)?))
}

/// The number of a part, and that of the only one behind it.
fn numbers_from(part: &[u8], behind: Option<&[u8]>) -> Option<(u32, u32)>
    ensures { Reads result (are_numbers (part.now ∷ parts_left (option_copied behind.entry)))
        (numbers_of (part.now ∷ parts_left (option_copied behind.entry))) }
{
    match only_part(behind) {
        Some(other) => two_numbers(part, other),
        None => None,
    }
}

/// Two numbers, which are all that is left.
fn numbers(behind: Option<&[u8]>) -> Option<(u32, u32)>
    ensures { Reads result (are_numbers (parts_left (option_copied behind.entry))) (numbers_of (parts_left (option_copied behind.entry))) }
{
    let (part, others) = first_part(behind?);
    numbers_from(part, others)
}

/// The bytes of the only part that is left.
fn memory(alloc: Global, behind: Option<&[u8]>) -> Result<Sequence<u8>, LineFault>
    ensures { Judged (λ bytes. bytes) result ((BadKind.Number, are_of_memory (parts_left (option_copied behind.entry))) ∷ [])
        (bytes (word (parts_left (option_copied behind.entry)) 0)) }
{
    let Some(part) = only_part(behind) else {
        return Err(LineFault::Broken(BadKind::Number));
    };
    if part.is_empty() {
        return Err(LineFault::Broken(BadKind::Number));
    }
    match bytes(alloc, part) {
        Ok(bytes) => Ok(Sequence::of(bytes)),
        Err(LineFault::NoRoom) => Err(LineFault::NoRoom),
        Err(LineFault::Broken(_)) => Err(LineFault::Broken(BadKind::Number)),
    }
}

/// The length in the only part that is left, where `u32::MAX` stands for all numbers above it.
fn length(behind: Option<&[u8]>) -> Result<u32, LineFault>
    ensures { Judged (λ len. len) result ((BadKind.Number, is_length (parts_left (option_copied behind.entry))) ∷ [])
        (small (word (parts_left (option_copied behind.entry)) 0)) }
{
    match only_part(behind) {
        Some(part) => number(part),
        None => Err(LineFault::Broken(BadKind::Number)),
    }
}

// ---- parameters

/// Whether nothing is left.
#[tactic(auto, using(crate::proofs::Parts::something))]
fn nothing(behind: Option<&[u8]>) -> Result<(), LineFault>
    ensures { IsKept result ((BadKind.Number, is_nothing (parts_left (option_copied behind.entry))) ∷ []) }
{
    match behind {
        None => Ok(()),
        Some(_) => Err(LineFault::Broken(BadKind::Number)),
    }
}

/// The parameter of a key, by what stands behind it.
fn param_of_key(
    alloc: Global,
    key: ParamKey,
    behind: Option<&[u8]>,
) -> Result<ScriptParam, LineFault>
    ensures { Judged (λ p. p) result ((BadKind.Number, fits_key key (parts_left (option_copied behind.entry))) ∷ [])
        (param_of_key key (parts_left (option_copied behind.entry))) }
{
    match key {
        ParamKey::Empty => {
            nothing(behind)?;
            Ok(ScriptParam::Empty)
        }
        ParamKey::ValueOut => {
            nothing(behind)?;
            Ok(ScriptParam::ValueOut)
        }
        ParamKey::ValueIn => match numbers(behind) {
            Some((a, b)) => Ok(ScriptParam::ValueIn { a, b }),
            None => Err(LineFault::Broken(BadKind::Number)),
        },
        ParamKey::ValueInout => match numbers(behind) {
            Some((a, b)) => Ok(ScriptParam::ValueInout { a, b }),
            None => Err(LineFault::Broken(BadKind::Number)),
        },
        ParamKey::MemoryOut => Ok(ScriptParam::MemoryOut {
            len: length(behind)?,
        }),
        ParamKey::MemoryIn => Ok(ScriptParam::MemoryIn {
            bytes: memory(alloc, behind)?,
        }),
        ParamKey::MemoryInout => Ok(ScriptParam::MemoryInout {
            bytes: memory(alloc, behind)?,
        }),
    }
}

/// The parameter of a word.
#[tactic(auto, unfolding(crate::specs::Forms::is_param, crate::specs::Forms::param_of))]
fn param_of(alloc: Global, word: &[u8]) -> Result<ScriptParam, LineFault>
    ensures { Judged (λ p. p) result ((BadKind.Number, is_param word.now) ∷ []) (param_of word.now) }
{
    let (part, behind) = first_part(word);
    let Some(key) = ParamKey::named(part) else {
        return Err(LineFault::Broken(BadKind::Number));
    };
    param_of_key(alloc, key, behind)
}

/// The parameters of all these words.
pub(crate) fn params_of(alloc: Global, mut words: Words) -> Result<Vec<ScriptParam>, LineFault>
    ensures { Judged (λ params. params.items) result ((BadKind.Number, list_all is_param words.entry) ∷ [])
        (map param_of words.entry) }
{
    let mut params = Vec::new(alloc);
    while let Some(word) = words.next_word() {
        params.push(param_of(alloc, word)?)?;
    }
    Ok(params)
}

/// Whether a parameter has no memory, or some of the lengths that it may have.
fn has_length(param: &ScriptParam) -> bool
    ensures { result ≡ has_length param.now }
{
    match param {
        ScriptParam::MemoryIn { bytes } | ScriptParam::MemoryInout { bytes } => {
            1 <= bytes.len() && bytes.len() <= MAX_LENGTH as usize
        }
        ScriptParam::MemoryOut { len } => is_within(1, MAX_LENGTH, *len),
        ScriptParam::Empty
        | ScriptParam::ValueIn { .. }
        | ScriptParam::ValueOut
        | ScriptParam::ValueInout { .. } => true,
    }
}

/// Whether all of them do.
pub(crate) fn have_lengths(params: &[ScriptParam]) -> bool
    ensures { result ≡ list_all has_length params.now }
{
    params.iter().all(|param| has_length(param))
}
