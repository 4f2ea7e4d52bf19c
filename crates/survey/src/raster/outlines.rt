// Outlines of faces, seen from above.
ghost use Rattle.std.specs.Prelude.{◌≡◌, ◌^◌, ◌≤◌, unsigned_abs};
ghost use Rattle.survey.specs.RasterFrames.{Framed};

use crate::raster::corners::Corner;
use crate::raster::facing::Facing;
use crate::raster::sides::Side;
use crate::raster::spans::Span;
use volumes::face::Face;

// The pixels on the inner side of four sides, all of them between the rows of the topmost and the bottommost corner. An array of the sides
// would be no plainer: a fold over it, with its closure, says what four lines of `cut` say.
#[derive(Clone, Copy)]
pub struct Outline {
    pub first: Side,
    pub second: Side,
    pub third: Side,
    pub fourth: Side,
    pub top: i64,
    pub bottom: i64,
    ghost top_near: { unsigned_abs top ≤ 2 ^ 25 },
    ghost bottom_near: { unsigned_abs bottom ≤ 2 ^ 25 },
    ghost framed: { Framed first second third fourth top bottom },
}

impl Outline {
    ghost use Rattle.std.specs.Prelude.{◌≡◌, ℕ, ◌^◌, ◌&&◌, [], ◌∷◌, pos, negsuc, ◌-ℤ◌};
    ghost use Rattle.volumes.specs.Machine.{face_of};
    ghost use Rattle.survey.specs.Drawing.{sample_of};
    ghost use Rattle.survey.specs.Raster.{AllNear};
    ghost use Rattle.survey.specs.Spans.{within, positive};
    ghost use Rattle.survey.specs.Sides.{seen, left_of};
    ghost use Rattle.survey.specs.Tilts.{covers_by};
    ghost use Rattle.survey.specs.RasterOutlines.{covers};

    // What lies on the positive side of the three sides of a triangle: no quadrilateral with a corner twice, since nothing lies on the positive
    // side of a way from a corner to itself.
    fn triangle(a: Corner, b: Corner, c: Corner) -> Outline
        ensures { (i j : ℕ) → covers result i j ≡ left_of (seen a) (seen b ∷ seen c ∷ []) (sample_of i j) }
    {
        Outline {
            first: Side::new(a, b),
            second: Side::new(b, c),
            third: Side::new(c, a),
            fourth: Side::everywhere(),
            top: a.y.min(b.y).min(c.y),
            bottom: a.y.max(b.y).max(c.y),
        }
    }

    // What lies on the positive side of the four sides of a quadrilateral.
    fn quadrilateral(a: Corner, b: Corner, c: Corner, d: Corner) -> Outline
        ensures { (i j : ℕ) → covers result i j ≡ left_of (seen a) (seen b ∷ seen c ∷ seen d ∷ []) (sample_of i j) }
    {
        Outline {
            first: Side::new(a, b),
            second: Side::new(b, c),
            third: Side::new(c, d),
            fourth: Side::new(d, a),
            top: a.y.min(b.y).min(c.y).min(d.y),
            bottom: a.y.max(b.y).max(c.y).max(d.y),
        }
    }

    // The outline of a face that looks this way.
    pub(crate) fn of(face: &Face, facing: Facing) -> Outline
        requires { AllNear (2 ^ 25) ((face_of face.now).first ∷ (face_of face.now).others) }
        ensures { (i j : ℕ) → covers result i j ≡ covers_by facing (face_of face.now) (sample_of i j) }
    {
        let a = Corner::under(face.first);
        let b = Corner::under(face.second);
        let c = Corner::under(face.third);
        match (face.fourth, facing) {
            (None, Facing::Up) => Outline::triangle(a, b, c),
            (None, Facing::Down) => Outline::triangle(c, b, a),
            (Some(d), Facing::Up) => Outline::quadrilateral(a, b, c, Corner::under(d)),
            (Some(d), Facing::Down) => Outline::quadrilateral(Corner::under(d), c, b, a),
        }
    }

    // The columns of the span that are covered in a row.
    pub(crate) fn cut(&self, span: Span, row: u16) -> Span
        ensures { (i : ℕ) → within result.lo result.hi i ≡ (within span.lo span.hi i && covers self.now i row) }
    {
        let span = self.first.cut(span, row);
        let span = self.second.cut(span, row);
        let span = self.third.cut(span, row);
        self.fourth.cut(span, row)
    }

    // The rows of the span whose samples lie between the topmost and the bottommost corner.
    pub(crate) fn rows(&self, span: Span) -> Span
        ensures { (j : ℕ) → within result.lo result.hi j ≡ ((within span.lo span.hi j && positive (pos 16) (pos 9 -ℤ self.now.top) j) && positive (negsuc 15) (self.now.bottom -ℤ pos 7) j) }
    {
        span.cut(16, 9 - self.top).cut(-16, self.bottom - 7)
    }
}
