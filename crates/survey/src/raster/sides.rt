// The sides of a face as functions of column and row.
ghost use Rattle.std.specs.Prelude.{◌≡◌, ℕ, ◌^◌, ◌≤◌, ◌&&◌, pos, if◌then◌else◌, unsigned_abs};
ghost use Rattle.geometry.specs.Signs.{is_positive};
ghost use Rattle.volumes.specs.Faces.{side_sign};
ghost use Rattle.survey.specs.Drawing.{sample_of};
ghost use Rattle.survey.specs.Spans.{within};
ghost use Rattle.survey.specs.Sides.{seen, inner, leans};

use crate::raster::corners::Corner;
use crate::raster::spans::Span;

// The pixels in column i and row j with column·i + row·j + constant > 0.
#[derive(Clone, Copy)]
pub struct Side {
    pub column: i64,
    pub row: i64,
    pub constant: i64,
    ghost row_near: { unsigned_abs row ≤ 2 ^ 30 },
    ghost constant_near: { unsigned_abs constant ≤ 2 ^ 54 },
}

// 1 where a sample on the side itself counts as inside, and else 0: the top-left fill rule.
fn tie(dy: i64, dx: i64) -> i64
    ensures { result ≡ (if leans dy dx then pos 1 else pos 0) }
{
    i64::from(dy > 0 || dy == 0 && dx > 0)
}

impl Side {
    // The pixels whose samples are on the positive side of the way from u to v.
    pub(crate) fn new(u: Corner, v: Corner) -> Side
        ensures { (i j : ℕ) → inner result.column result.row result.constant i j ≡ is_positive (side_sign (seen u) (seen v) (sample_of i j)) }
    {
        let dx = v.x - u.x;
        let dy = u.y - v.y;
        let at_origin = dx * (8 - u.y) + dy * (8 - u.x);
        Side {
            column: 16 * dy,
            row: 16 * dx,
            constant: at_origin + tie(dy, dx),
        }
    }

    // Every pixel.
    pub(crate) fn everywhere() -> Side
        ensures column { result.column ≡ pos 0 }
        ensures row { result.row ≡ pos 0 }
        ensures constant { result.constant ≡ pos 1 }
    {
        Side {
            column: 0,
            row: 0,
            constant: 1,
        }
    }

    // The columns of the span that are on the inner side in a row.
    pub(crate) fn cut(&self, span: Span, row: u16) -> Span
        ensures { (i : ℕ) → within result.lo result.hi i ≡ (within span.lo span.hi i && inner self.now.column self.now.row self.now.constant i row) }
    {
        span.cut(self.column, self.row * row as i64 + self.constant)
    }
}
