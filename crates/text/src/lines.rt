// Cuts a job into lines, and a line into its head and fields.
ghost use Rattle.std.specs.Prelude.{◌≡◌, ℕ, ◌+◌, ◌<◌, ◌≤◌, List, [], ◌∷◌, ◌++◌, length, IfSome, MatchOption, ◌≢◌, slice_index};
ghost use Rattle.text.specs.Text.{rest, left, FirstLine};
ghost use Rattle.text.specs.Pieces.{pieces};

use crate::reader::{Line, Part, Parts, Reader};

// The first place that holds `b`, or the length where none does: a piece ends there too, so that no caller needs a case for none.
fn find(text: &[u8], b: u8) -> usize
    ensures within { result ≤ length text.now }
    ensures before { (k : ℕ) → k < result → slice_index text.now k ≢ b }
    ensures found { result < length text.now → slice_index text.now result ≡ b }
{
    text.iter().position(|x| *x == b).unwrap_or(text.len())
}

impl<'a> Reader<'a> {
    pub fn new(text: &'a [u8]) -> Reader<'a>
        ensures text { rest result ≡ text.now }
        ensures line { result.line ≡ 0 }
    {
        Reader {
            text,
            at: 0,
            line: 0,
        }
    }

    // The next line, or none at the end of the text.
    pub fn next_line(&mut self) -> Option<Line<'a>>
        ensures cut { MatchOption result ((rest self.old ≡ []) × (rest self.new ≡ [])) (λ l. FirstLine (rest self.old) l.bytes.now l.ended (rest self.new)) }
        ensures number { MatchOption result (self.new.line ≡ self.old.line) (λ l. (l.number ≡ self.old.line + 1) × (self.new.line ≡ self.old.line + 1)) }
    {
        let rest = &self.text[self.at..];
        if rest.is_empty() {
            return None;
        }
        let end = find(rest, b'\n');
        let ended = end < rest.len();
        self.at += end + usize::from(ended);
        self.line += 1;
        Some(Line {
            bytes: &rest[..end],
            number: self.line,
            ended,
        })
    }
}

impl<'a> Line<'a> {
    // The head and the fields of a line.
    pub fn parts(self) -> Parts<'a>
        ensures parts { left result ≡ pieces 9 self.entry.bytes.now }
        ensures number { result.number ≡ 0 }
    {
        Parts {
            bytes: self.bytes,
            at: 0,
            number: 0,
        }
    }
}

impl<'a> Parts<'a> {
    // The next part, or none past the last.
    pub fn next_part(&mut self) -> Option<Part<'a>>
        ensures cut { MatchOption result ((left self.old ≡ []) × (left self.new ≡ [])) (λ p. left self.old ≡ p.bytes.now ∷ left self.new) }
        ensures number { IfSome result (λ p. (p.number ≡ self.old.number) × (self.new.number ≡ self.old.number + 1)) }
    {
        let rest = self.bytes.get(self.at..)?;
        let end = find(rest, b'\t');
        let number = self.number;
        self.at += end + 1;
        self.number += 1;
        Some(Part {
            bytes: &rest[..end],
            number,
        })
    }
}
