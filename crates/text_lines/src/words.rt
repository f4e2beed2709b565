//! The words of a line.

ghost use Rattle.std.specs.Prelude.{◌≡◌, ℕ, ◌<◌, List, ◌∷◌, drop, length, MatchOption};
ghost use Rattle.std.specs.Option.{option_map, option_copied};
ghost use Rattle.text_lines.specs.Lines.{Lacks, IsCutAt};
ghost use Rattle.text_lines.specs.Words.{words_left, words_of, word_at, last_word, is_ended};

use memchr::memchr;
use std::marker::Model;

/// A line of so many bytes is searched many bytes at a time, which is no gain over short words.
const LONG_LINE: usize = 512;

/// The first word of a long line that has others, and what stands behind the space after it.
fn split_long(line: &[u8]) -> Option<(&[u8], &[u8])>
    ensures { MatchOption result (Lacks 32 line.now) (λ x. IsCutAt 32 line.now x.0.now x.1.now) }
{
    let end = memchr(b' ', line)?;
    Some((&line[..end], &line[end + 1..]))
}

/// The first word of a line that has others, and what stands behind the space after it.
fn split_word(line: &[u8]) -> Option<(&[u8], &[u8])>
    ensures { MatchOption result (Lacks 32 line.now) (λ x. IsCutAt 32 line.now x.0.now x.1.now) }
{
    if line.len() >= LONG_LINE {
        return split_long(line);
    }
    for (end, byte) in line.iter().enumerate() {
        if *byte == b' ' {
            return Some((&line[..end], &line[end + 1..]));
        }
    }
    None
}

/// The words of a line that are still to be read. Two words are parted by one space, so two spaces in a row part
/// an empty word from its neighbours. A contract sees the list of these words.
#[derive(Drop)]
pub struct Words<'a> {
    rest: Option<&'a [u8]>,
}

impl<'a> Model for Words<'a> {
    ghost Value = { List (List ℕ) };

    ghost view = { λ w. words_left (option_copied w.rest) };
}

impl<'a> Words<'a> {
    /// The words of a line, which is given without its line feed.
    pub fn of(line: &'a [u8]) -> Words<'a>
        ensures { result ≡ words_of line.now }
    {
        Words { rest: Some(line) }
    }

    /// Takes the next word. At `None` none was left, and none is.
    pub fn next_word(&mut self) -> Option<&'a [u8]>
        ensures word { word_at self.old ≡ option_map (λ word. (word.now, self.new)) result }
        ensures left { self.new ≡ drop 1 self.old }
    {
        let line = self.rest?;
        match split_word(line) {
            Some((word, rest)) => {
                self.rest = Some(rest);
                Some(word)
            }
            None => {
                self.rest = None;
                Some(line)
            }
        }
    }

    /// Takes the next word, where there is one.
    pub fn word(&mut self) -> &'a [u8]
        requires { 0 < length self.old }
        ensures { self.old ≡ result.now ∷ self.new }
    {
        match self.next_word() {
            Some(word) => word,
            None => unreachable!(),
        }
    }

    /// Takes the one word that is left. At `None` there was none, or there were several, of which two are gone.
    #[tactic(auto, using(crate::proofs::Taken::none_behind, crate::proofs::Taken::two_behind))]
    #[inline(always)]
    pub fn last_word(&mut self) -> Option<&'a [u8]>
        ensures word { last_word self.old ≡ option_map (λ word. word.now) result }
        ensures left { self.new ≡ drop 2 self.old }
    {
        let word = self.next_word()?;
        match self.next_word() {
            Some(_) => None,
            None => Some(word),
        }
    }

    /// Whether all words were taken.
    pub fn is_ended(&self) -> bool
        ensures { result ≡ is_ended self.now }
    {
        self.rest.is_none()
    }
}
