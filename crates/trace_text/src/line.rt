//! A line as a whole: its bytes, and how many words it has.

ghost use Rattle.std.specs.Prelude.{◌≡◌, ◌<◌};
ghost use Rattle.std.specs.List.{list_all};
ghost use Rattle.text_lines.specs.Words.{words_of};
ghost use Rattle.trace_text.specs.Rules.{counts, is_text_byte};

use text_lines::Words;

/// Whether all bytes of a line may stand in a text.
pub fn is_text(line: &[u8]) -> bool
    ensures { result ≡ list_all is_text_byte line.now }
{
    // Without an exit the bytes are tested many at a time.
    let mut all = true;
    for byte in line {
        all &= matches!(*byte, 0x20..=0x7e);
    }
    all
}

/// Whether a line has a first word and so many behind it, none of them empty.
#[tactic(auto, unfolding(crate::specs::Rules::counts))]
pub fn has_words(line: &[u8], behind: usize) -> bool
    requires { behind < 100 }
    ensures { result ≡ counts behind (words_of line.now) }
{
    let mut words = Words::of(line);
    let mut count = 0;
    while let Some(word) = words.next_word() {
        if word.is_empty() || count > behind {
            return false;
        }
        count += 1;
    }
    count == behind + 1
}
