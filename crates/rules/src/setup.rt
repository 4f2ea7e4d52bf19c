// What a job's first lines set up: the plane, its ground and its frame.
ghost use Rattle.std.specs.Prelude.{◌≡◌};
ghost use Rattle.rules.specs.Contents.{blank, set_by};

use planes::frame::Cutout;
use text::entry::{Entry, PlaneKind};

// The plane's size and kind, the height of the ground, and the part of the plane that is drawn on where a frame line says so.
#[derive(Clone, Copy)]
pub struct Setup {
    pub width: i32,
    pub rows: i32,
    pub kind: PlaneKind,
    pub ground_height: i32,
    pub cutout: Option<Cutout>,
}

impl Setup {
    // Before the first line.
    pub fn new() -> Setup
        ensures { result ≡ blank }
    {
        Setup {
            width: 0,
            rows: 0,
            kind: PlaneKind::Line,
            ground_height: 0,
            cutout: None,
        }
    }

    // After one line more.
    pub fn with(self, entry: Entry) -> Setup
        ensures { result ≡ set_by self entry }
    {
        match entry {
            Entry::Plan { width, rows, kind } => Setup {
                width,
                rows,
                kind,
                ..self
            },
            Entry::Ground { height } => Setup {
                ground_height: height,
                ..self
            },
            Entry::Frame { c0, r0, c1, r1 } => Setup {
                cutout: Some(Cutout {
                    c0: c0.into(),
                    r0: r0.into(),
                    c1: c1.into(),
                    r1: r1.into(),
                }),
                ..self
            },
            _ => self,
        }
    }
}
