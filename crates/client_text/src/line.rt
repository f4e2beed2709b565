//! Words of a line, by their number.

ghost use Rattle.std.specs.Prelude.{◌≡◌, ◌<◌, ◌≤◌, drop, length};
ghost use Rattle.client_text.specs.Rules.{has_between};
ghost use Rattle.text_lines.specs.Words.{words_of};
ghost use Rattle.trace_text.specs.Rules.{word};

use text_lines::Words;

/// Whether a line has at least and at most so many words, none of them empty.
#[tactic(auto, unfolding(crate::specs::Rules::has_between))]
pub(crate) fn has_between(line: &[u8], least: usize, most: usize) -> bool
    requires { most < 100 }
    ensures { result ≡ has_between least most (words_of line.now) }
{
    let mut words = Words::of(line);
    let mut count = 0;
    while let Some(word) = words.next_word() {
        if word.is_empty() || count >= most {
            return false;
        }
        count += 1;
    }
    least <= count
}

/// The first word of a line.
pub(crate) fn first_word(line: &[u8]) -> &[u8]
    ensures { result.now ≡ word (words_of line.now) 0 }
{
    let mut words = Words::of(line);
    words.word()
}

/// The word of a number; an empty one where the line has none of that number.
pub(crate) fn word_at(line: &[u8], number: usize) -> &[u8]
    requires { number < 100 }
    ensures { result.now ≡ word (words_of line.now) number }
{
    let mut words = Words::of(line);
    let mut left = number;
    while let Some(word) = words.next_word() {
        if left == 0 {
            return word;
        }
        left -= 1;
    }
    &[]
}

/// The words of a line behind so many.
pub(crate) fn words_behind(line: &[u8], count: usize) -> Words
    requires { count ≤ length (words_of line.now) }
    ensures { result ≡ drop count (words_of line.now) }
{
    let mut words = Words::of(line);
    for _ in 0..count {
        let _before = words.word();
    }
    words
}
