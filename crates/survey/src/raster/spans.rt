// Spans: the columns of a row, or the rows of a plane, between two numbers.
ghost use Rattle.std.specs.Prelude.{◌≡◌, ℕ, ◌&&◌};
ghost use Rattle.survey.specs.Spans.{within, positive};

// The numbers lo, lo + 1, .. hi - 1.
#[derive(Clone, Copy)]
pub struct Span {
    pub lo: u16,
    pub hi: u16,
}

impl Span {
    const EMPTY: Span = Span { lo: 0, hi: 0 };

    // The numbers i of the span where slope·i + start is positive.
    pub(crate) fn cut(self, slope: i64, start: i64) -> Span
        ensures { (i : ℕ) → within result.lo result.hi i ≡ (within self.lo self.hi i && positive slope start i) }
    {
        if slope > 0 {
            if start > 0 {
                return self;
            }
            let last_out = start.unsigned_abs() / slope.unsigned_abs();
            if last_out < self.lo as u64 {
                self
            } else if last_out < self.hi as u64 {
                Span {
                    lo: last_out as u16 + 1,
                    hi: self.hi,
                }
            } else {
                Span::EMPTY
            }
        } else if start <= 0 {
            Span::EMPTY
        } else if slope == 0 {
            self
        } else {
            let last_in = (start.unsigned_abs() - 1) / slope.unsigned_abs();
            if last_in < self.hi as u64 {
                Span {
                    lo: self.lo,
                    hi: last_in as u16 + 1,
                }
            } else {
                self
            }
        }
    }
}
