// A layer over any plane: a frame, which narrows the window to a cutout.
ghost use Rattle.std.specs.Prelude.{◌≡◌, ℕ, ◌-◌, min, ◌&&◌, pos, if◌then◌else◌, int_le, int_lt};
ghost use Rattle.planes.specs.Planes.{PlaneModel, Wiped, Raised, Counted};
ghost use Rattle.planes.specs.Frames.{in_cutout, at_least0, beginning, ending, shared, framed, framed_sound, KeepsFrame};

use crate::plane::{Plane, Window};
use geometry::units::{Column, Row, Step};

// Columns c0 to c1 - 1 and rows r0 to r1 - 1, by any four numbers: a cutout may reach beyond a plane, and one whose end does not lie
// after its beginning is empty. It shares no method with `Window`, whose columns and rows are types of their own: one generic type
// for both would be no plainer.
#[derive(Clone, Copy, PartialEq, Eq, Debug)]
pub struct Cutout {
    pub c0: i64,
    pub r0: i64,
    pub c1: i64,
    pub r1: i64,
}

impl Cutout {
    // Whether a pixel lies in it.
    fn holds(self, column: Column, row: Row) -> bool
        ensures { result ≡ in_cutout self column.0 row.0 }
    {
        lies(column.0, self.c0, self.c1) && lies(row.0, self.r0, self.r1)
    }

    // The part of a window that lies in it.
    fn narrowed(self, window: Window) -> Window
        ensures c0 { result.c0.0 ≡ (if shared self window.c0.0 window.r0.0 window.c1.0 window.r1.0 then beginning self.c0 window.c0.0 else 0) }
        ensures r0 { result.r0.0 ≡ (if shared self window.c0.0 window.r0.0 window.c1.0 window.r1.0 then beginning self.r0 window.r0.0 else 0) }
        ensures c1 { result.c1.0 ≡ (if shared self window.c0.0 window.r0.0 window.c1.0 window.r1.0 then ending self.c1 window.c1.0 else 0) }
        ensures r1 { result.r1.0 ≡ (if shared self window.c0.0 window.r0.0 window.c1.0 window.r1.0 then ending self.r1 window.r1.0 else 0) }
    {
        let c0 = clip(self.c0).max(window.c0.0);
        let r0 = clip(self.r0).max(window.r0.0);
        let c1 = clip(self.c1).min(window.c1.0);
        let r1 = clip(self.r1).min(window.r1.0);
        if c0 < c1 && r0 < r1 {
            Window {
                c0: Column(c0),
                r0: Row(r0),
                c1: Column(c1),
                r1: Row(r1),
            }
        } else {
            Window::EMPTY
        }
    }
}

// Whether a number is from `begin` to `end` - 1: by two comparisons, which a range's `contains` would say with a reference
// more.
fn lies(number: u16, begin: i64, end: i64) -> bool
    ensures { result ≡ (int_le begin (pos number) && int_lt (pos number) end) }
{
    begin <= number as i64 && (number as i64) < end
}

// A number as that of a column or a row: the nearest that there is.
fn clip(number: i64) -> u16
    ensures { result ≡ min (at_least0 number) 65535 }
{
    number.clamp(0, u16::MAX as i64) as u16
}

// The plane below, seen through a cutout: what lies outside the cutout is not drawn on. Wiping goes below, past the cutout.
#[derive(Drop)]
pub struct Frame<P> {
    below: P,
    cutout: Cutout,
}

impl<P: Plane> Frame<P> {
    // The plane seen through the cutout.
    pub fn over(below: P, cutout: Cutout) -> Frame<P>
        ensures below { result.below ≡ below }
        ensures cutout { result.cutout ≡ cutout }
    {
        Frame { below, cutout }
    }
}

impl<P: Plane> Plane for Frame<P> {
    ghost model = { λ f. framed (P.Plane.model f.below) f.cutout };

    ghost sound = { λ f. framed_sound (P.Plane.model f.below) f.cutout (P.Plane.sound f.below) };

    ghost names = { λ f. P.Plane.names f.below };

    fn width(&self) -> u16 {
        self.below.width()
    }

    fn rows(&self) -> u16 {
        self.below.rows()
    }

    fn modulus(&self) -> u32 {
        self.below.modulus()
    }

    fn window(&self) -> Window {
        self.cutout.narrowed(self.below.window())
    }

    fn height(&self, column: Column, row: Row) -> Option<Step> {
        self.below.height(column, row)
    }

    fn count(&self, column: Column, row: Row) -> Option<u32> {
        self.below.count(column, row)
    }

    // Each change also leaves the cutout, and the shape of the plane below, as they are.
    fn wipe(&mut self, ground: Step)
        ensures after { Wiped (framed (P.Plane.model self.old.below) self.old.cutout) ground.0 (framed (P.Plane.model self.new.below) self.new.cutout) }
        ensures names { P.Plane.names self.new.below ≡ P.Plane.names self.old.below }
        ensures frame { KeepsFrame P.Plane.model self.old self.new }
    {
        self.below.wipe(ground);
    }

    #[tactic(auto, using(crate::proofs::FrameWindows::window_framed))]
    fn raise(&mut self, column: Column, row: Row, to: Step)
        ensures after { Raised (framed (P.Plane.model self.old.below) self.old.cutout) column.0 row.0 to.0 (framed (P.Plane.model self.new.below) self.new.cutout) }
        ensures names { P.Plane.names self.new.below ≡ P.Plane.names self.old.below }
        ensures frame { KeepsFrame P.Plane.model self.old self.new }
    {
        if self.cutout.holds(column, row) {
            self.below.raise(column, row, to);
        }
    }

    #[tactic(auto, using(crate::proofs::FrameWindows::window_framed))]
    fn more(&mut self, column: Column, row: Row)
        ensures after { Counted (framed (P.Plane.model self.old.below) self.old.cutout) column.0 row.0 1 (framed (P.Plane.model self.new.below) self.new.cutout) }
        ensures names { P.Plane.names self.new.below ≡ P.Plane.names self.old.below }
        ensures frame { KeepsFrame P.Plane.model self.old self.new }
    {
        if self.cutout.holds(column, row) {
            self.below.more(column, row);
        }
    }

    #[tactic(auto, using(crate::proofs::FrameWindows::window_framed))]
    fn less(&mut self, column: Column, row: Row)
        ensures after { Counted (framed (P.Plane.model self.old.below) self.old.cutout) column.0 row.0 ((P.Plane.model self.old.below).modulus - 1) (framed (P.Plane.model self.new.below) self.new.cutout) }
        ensures names { P.Plane.names self.new.below ≡ P.Plane.names self.old.below }
        ensures frame { KeepsFrame P.Plane.model self.old self.new }
    {
        if self.cutout.holds(column, row) {
            self.below.less(column, row);
        }
    }
}
