//! The words of a command line.
ghost use Rattle.std.specs.Prelude.{◌≡◌, ◌==◌, [], IfOk, map, string_bytes};
ghost use Rattle.std.specs.List.{slice_split};
ghost use Rattle.core_c.specs.Words.{texts_in};

use std::alloc::{AllocError, Global};

/// The parts of a text between its spaces.
fn parts_of(alloc: Global, text: &str) -> Result<Vec<&str>, AllocError>
    ensures { IfOk result (λ parts. map (λ part. part.now) parts.items ≡ slice_split (λ byte. byte == 32) text.now) }
{
    text.split(' ').collect(alloc)
}

/// Texts of their own.
fn owned(alloc: Global, parts: &[&str]) -> Result<Vec<String>, AllocError>
    ensures { IfOk result (λ words. map string_bytes words.items ≡ map (λ part. part.now) parts.now) }
{
    let mut words = Vec::with_capacity(alloc, parts.len())?;
    for part in parts {
        words.push(String::from_str(alloc, part)?)?;
    }
    Ok(words)
}

/// The words of a line: what stands between its spaces. A line that is not UTF-8 has none, since no such word is of
/// use.
pub fn words_in(alloc: Global, line: &[u8]) -> Result<Vec<String>, AllocError>
    ensures { IfOk result (λ words. map string_bytes words.items ≡ texts_in line.now) }
{
    match str::from_utf8(line) {
        Ok(text) => owned(alloc, parts_of(alloc, text)?.as_slice()),
        Err(_) => Ok(Vec::new(alloc)),
    }
}
