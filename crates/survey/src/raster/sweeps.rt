// Sweeping a brush over all pixels that an outline covers.
ghost use Rattle.std.specs.Prelude.{◌≡◌, ◌&&◌, ◌==◌};
ghost use Rattle.survey.specs.Raster.{Painted};
ghost use Rattle.survey.specs.RasterOutlines.{covers};
ghost use Rattle.survey.specs.Spans.{within};

use crate::raster::brushes::Brush;
use crate::raster::outlines::Outline;
use crate::raster::spans::Span;
use geometry::units::{Column, Row};
use planes::plane::Plane;

// The columns of the span, in one row.
fn sweep_row<P: Plane, B: Brush + Copy>(plane: &mut P, columns: Span, row: Row, brush: B)
    ensures after { Painted (P.Plane.model plane.old) (λ k l. (l == row.0) && within columns.lo columns.hi k) (B.Brush.lays brush) (B.Brush.adds brush) (P.Plane.model plane.new) }
    ensures names { P.Plane.names plane.new ≡ P.Plane.names plane.old }
{
    for column in columns.lo..columns.hi {
        brush.touch(plane, Column(column), row);
    }
}

// What the outline covers in the rows of the span.
fn sweep_rows<P: Plane, B: Brush + Copy>(plane: &mut P, outline: &Outline, rows: Span, brush: B)
    ensures after { Painted (P.Plane.model plane.old) (λ k l. within rows.lo rows.hi l && covers outline.now k l) (B.Brush.lays brush) (B.Brush.adds brush) (P.Plane.model plane.new) }
    ensures names { P.Plane.names plane.new ≡ P.Plane.names plane.old }
{
    let window = plane.window();
    let all = Span {
        lo: window.c0.0,
        hi: window.c1.0,
    };
    for row in rows.lo..rows.hi {
        let columns = outline.cut(all, row);
        sweep_row(plane, columns, Row(row), brush);
    }
}

// All that the outline covers.
pub(crate) fn sweep<P: Plane, B: Brush + Copy>(plane: &mut P, outline: &Outline, brush: B)
    ensures after { Painted (P.Plane.model plane.old) (covers outline.now) (B.Brush.lays brush) (B.Brush.adds brush) (P.Plane.model plane.new) }
    ensures names { P.Plane.names plane.new ≡ P.Plane.names plane.old }
{
    let window = plane.window();
    let rows = outline.rows(Span {
        lo: window.r0.0,
        hi: window.r1.0,
    });
    sweep_rows(plane, outline, rows, brush);
}
