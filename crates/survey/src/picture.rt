// Drawing a survey: its picture as a raw PGM file, written to a buffer that is lent.
ghost use Rattle.std.specs.Prelude.{◌≡◌, ℕ, ◌+◌, ◌*◌, ◌<◌, ◌≤◌, true, [], ◌∷◌, ◌++◌, length, drop, IfOk, decimal, MatchResult, OnOk, slice_index};
ghost use Rattle.std.specs.Result.{result_err};
ghost use Rattle.planes.specs.Planes.{in_window};
ghost use Rattle.survey.specs.Survey.{casting_of, fits};
ghost use Rattle.survey.specs.Refusals.{draw_refusal};
ghost use Rattle.survey.specs.Account.{Account, Stands};
ghost use Rattle.survey.specs.Picture.{header_of, grey_at, row_below, rows_below, picture, byte_of, Shows};
ghost use Rattle.survey.specs.Pens.{HasRoom, Writes};

use crate::pen::Pen;
use crate::reading::look;
use crate::state::Casting;
use geometry::refusal::Refusal;
use geometry::units::{Column, Row};
use planes::plane::Plane;

// The grey of a pixel outside the window.
const OUTSIDE: u8 = 64;

// How many digits a number has.
fn digits(number: u16) -> usize
    ensures { result ≡ length (decimal number) }
{
    number.max(1).ilog10() as usize + 1
}

// How many bytes the picture of a plane has.
fn picture_length(width: u16, rows: u16) -> usize
    ensures { result ≡ length (header_of width rows) + width * rows }
{
    9 + digits(width) + digits(rows) + width as usize * rows as usize
}

// A survey and the plane that it fits, as their picture shows them.
#[derive(Drop)]
struct Scene<'a, P: Plane> {
    survey: &'a Casting,
    plane: &'a P,
    ghost fitting: { fits (casting_of survey.now) (P.Plane.model plane.now) ≡ true },
}

impl<'a, P: Plane> Scene<'a, P> {
    // The grey of a pixel: that of its mark, if it is in the window.
    fn grey_at(&self, column: Column, row: Row) -> u8
        ensures { result ≡ grey_at (P.Plane.model self.now.plane.now) (casting_of self.now.survey.now).total column.0 row.0 }
    {
        match look(self.survey, self.plane, column, row) {
            Ok((mark, _count, _total)) => mark.into(),
            Err(_) => OUTSIDE,
        }
    }
}

impl<'a> Pen<'a> {
    // Writes the header of a picture.
    fn put_header(&mut self, width: u16, rows: u16)
        requires { HasRoom (length (header_of width rows)) self.old }
        ensures { Writes self.old (header_of width rows) self.new }
    {
        self.put_text(b"P5\n");
        self.put_number(width);
        self.put_text(b" ");
        self.put_number(rows);
        self.put_text(b"\n255\n");
    }

    // Writes a row of pixels.
    fn put_row<P: Plane>(&mut self, scene: &Scene<P>, row: Row)
        requires { HasRoom (P.Plane.model scene.now.plane.now).width self.old }
        ensures { Writes self.old (row_below (P.Plane.model scene.now.plane.now) (casting_of scene.now.survey.now).total row.0 (P.Plane.model scene.now.plane.now).width) self.new }
    {
        for column in 0..scene.plane.width() {
            self.put(scene.grey_at(Column(column), row));
        }
    }

    // Writes all rows.
    fn put_rows<P: Plane>(&mut self, scene: &Scene<P>)
        requires { HasRoom ((P.Plane.model scene.now.plane.now).width * (P.Plane.model scene.now.plane.now).rows) self.old }
        ensures { Writes self.old (rows_below (P.Plane.model scene.now.plane.now) (casting_of scene.now.survey.now).total (P.Plane.model scene.now.plane.now).rows) self.new }
    {
        for row in 0..scene.plane.rows() {
            self.put_row(scene, Row(row));
        }
    }
}

// Draws the picture of a survey to the front of a buffer, and answers its length. What is behind it is kept.
pub fn draw<P: Plane>(survey: &Casting, plane: &P, buffer: &mut [u8]) -> Result<usize, Refusal>
    ensures refuses { result_err result ≡ draw_refusal (casting_of survey.now) (P.Plane.model plane.now) (length (picture (P.Plane.model plane.now) (casting_of survey.now).total)) (length buffer.old) }
    ensures length { IfOk result (λ n. n ≡ length (picture (P.Plane.model plane.now) (casting_of survey.now).total)) }
    ensures after { MatchResult result (λ _. buffer.new ≡ picture (P.Plane.model plane.now) (casting_of survey.now).total ++ drop (length (picture (P.Plane.model plane.now) (casting_of survey.now).total)) buffer.old) (λ _. buffer.new ≡ buffer.old) }
    ensures stands { (a : Account) → Stands a (P.Plane.model plane.now) (casting_of survey.now) → OnOk result ((k l : ℕ) → in_window (P.Plane.model plane.now) k l ≡ true → Shows a (P.Plane.model plane.now) (casting_of survey.now) k l (slice_index buffer.new (byte_of (P.Plane.model plane.now) k l))) }
{
    if !survey.shape.fits(plane) {
        return Err(Refusal::Plane);
    }
    let width = plane.width();
    let rows = plane.rows();
    if buffer.len() < picture_length(width, rows) {
        return Err(Refusal::Picture);
    }
    let mut pen = Pen { buffer, at: 0 };
    pen.put_header(width, rows);
    let scene = Scene { survey, plane };
    pen.put_rows(&scene);
    Ok(pen.at)
}
