//! Lines of a text.

ghost use Rattle.std.specs.Prelude.{◌≡◌, MatchOption};
ghost use Rattle.text_lines.specs.Lines.{Lacks, IsCutAt, is_skipped};

use memchr::memchr;

/// The first line of a text, without its line feed, and what stands behind it.
pub fn split_line(text: &[u8]) -> Option<(&[u8], &[u8])>
    ensures { MatchOption result (Lacks 10 text.now) (λ x. IsCutAt 10 text.now x.0.now x.1.now) }
{
    let end = memchr(b'\n', text)?;
    Some((&text[..end], &text[end + 1..]))
}

/// Whether a line is empty or a comment.
#[tactic(auto, unfolding(crate::specs::Lines::is_skipped))]
pub fn is_skipped(line: &[u8]) -> bool
    ensures { result ≡ is_skipped line.now }
{
    line.is_empty() || line[0] == b'#'
}
