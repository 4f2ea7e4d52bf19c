// Cases of matching sides, loading tables and pairs.
use crate::words::{Numbers, told};
use anyhow::Context;
use geometry::units::Point;
use sheets::sheets::Sheets;
use solids::matching::match_sides;
use solids::misfit::{Misfit, Site};
use solids::pair::Pair;
use solids::solid::{Solid, Triangle};
use solids::table::TableSolid;
use std::alloc::Global;
use std::fmt;
use std::fmt::Display;

// A misfit as it is written: its refusal, and the part that it is about.
#[derive(Drop)]
struct Fault(Misfit);

impl Display for Fault {
    fn fmt<W: fmt::Write>(&self, f: &mut fmt::Formatter<W>) -> fmt::Result {
        let Fault(Misfit { refusal, site }) = *self;
        match site {
            Site::Nowhere => write!(f, "{refusal}"),
            Site::Corner(at) => write!(f, "{refusal} corner {at}"),
            Site::Triangle(at) => write!(f, "{refusal} face {at}"),
            Site::Place(at) => write!(f, "{refusal} place {at}"),
            Site::Partners(at) => write!(f, "{refusal} partners {at}"),
        }
    }
}

fn triangle(numbers: &mut Numbers) -> anyhow::Result<Triangle> {
    Ok(Triangle {
        a: numbers.natural()?,
        b: numbers.natural()?,
        c: numbers.natural()?,
    })
}

// How many corners, triangles and partners tables have.
#[derive(Clone, Copy)]
struct Lengths {
    corners: usize,
    triangles: usize,
    partners: usize,
}

impl Lengths {
    fn read(numbers: &mut Numbers) -> anyhow::Result<Lengths> {
        Ok(Lengths {
            corners: numbers.size()?,
            triangles: numbers.size()?,
            partners: numbers.size()?,
        })
    }
}

// The three lists of a table.
#[derive(Drop)]
struct Tables {
    corners: Vec<Point>,
    triangles: Vec<Triangle>,
    partners: Vec<u32>,
}

impl Tables {
    // The numbers of corners, triangles and partners, then the lists, each partner as `partner` says.
    fn read<F: FnMut(&mut Numbers) -> anyhow::Result<u32>>(
        heap: Global,
        numbers: &mut Numbers,
        partner: F,
    ) -> anyhow::Result<Tables>
        requires { F.IsAlwaysCallable partner }
    {
        let lengths = Lengths::read(numbers)?;
        Ok(Tables {
            corners: numbers.list(heap, lengths.corners, Numbers::point)?,
            triangles: numbers.list(heap, lengths.triangles, triangle)?,
            partners: numbers.list(heap, lengths.partners, partner)?,
        })
    }

    // The same numbers, one corner and one triangle, which stand for all, with a partner list to be written.
    fn read_many(heap: Global, numbers: &mut Numbers) -> anyhow::Result<Tables> {
        let lengths = Lengths::read(numbers)?;
        // both before the lists: a number that is missing is told even where there is no room for them
        let corner = numbers.point()?;
        let triangle = triangle(numbers)?;
        Ok(Tables {
            corners: vec![in heap; corner; lengths.corners]?,
            triangles: vec![in heap; triangle; lengths.triangles]?,
            partners: vec![in heap; 9u32; lengths.partners]?,
        })
    }

    // Writes the partner list, and says whether the sides match.
    fn matched(&mut self, heap: Global) -> anyhow::Result<String> {
        let answer = match_sides(
            self.corners.as_slice(),
            self.triangles.as_slice(),
            self.partners.as_mut_slice(),
        );
        told(heap, answer.and(Ok("matched")).map_err(Fault))
    }

    // Loads the three lists.
    fn load<'a>(&'a self, solid: &mut TableSolid<'a>) -> Result<(), Misfit> {
        solid.load(
            self.corners.as_slice(),
            self.triangles.as_slice(),
            self.partners.as_slice(),
        )
    }

    // The solid of the three lists; an empty one where they make none.
    fn solid(&self) -> TableSolid<'_> {
        let mut solid = TableSolid::empty();
        let _ = self.load(&mut solid);
        solid
    }
}

// match, then the numbers of corners, triangles and places of the list, the corners and the triangles
pub(crate) fn sides(heap: Global, numbers: &mut Numbers) -> anyhow::Result<String> {
    let mut tables = Tables::read(heap, numbers, |_| Ok(9))?;
    let mut text = tables.matched(heap)?;
    for partner in &tables.partners {
        write!(text, " {partner}")?;
    }
    Ok(text)
}

// many, then the same three numbers, one corner and one triangle, which stand for all
pub(crate) fn many(heap: Global, numbers: &mut Numbers) -> anyhow::Result<String> {
    Tables::read_many(heap, numbers)?.matched(heap)
}

// load, then the numbers of corners, triangles and partners, and the three lists
pub(crate) fn load(heap: Global, numbers: &mut Numbers) -> anyhow::Result<String> {
    let tables = Tables::read(heap, numbers, Numbers::natural)?;
    let mut solid = TableSolid::empty();
    let answer = tables.load(&mut solid);
    let mut text = told(heap, answer.and(Ok("loaded")).map_err(Fault))?;
    write!(text, " triangles {}", solid.triangles())?;
    Ok(text)
}

// All that a solid answers.
fn shown<S: Solid>(heap: Global, solid: &S) -> anyhow::Result<String> {
    let mut text = String::new(heap);
    for p in (0..solid.corners()).filter_map(|number| solid.corner(number)) {
        write!(text, "{} {} {} ", p.x.0, p.y.0, p.z.0)?;
    }
    for t in (0..solid.triangles()).filter_map(|number| solid.triangle(number)) {
        write!(text, "{} {} {} ", t.a, t.b, t.c)?;
    }
    let places = solid.triangles().saturating_mul(3);
    for partner in (0..places).filter_map(|place| solid.partner(place)) {
        write!(text, "{partner} ")?;
    }
    text.push_str("end")?;
    Ok(text)
}

// pair, then two solids as for load
pub(crate) fn pair(heap: Global, numbers: &mut Numbers) -> anyhow::Result<String> {
    let first = Tables::read(heap, numbers, Numbers::natural)?;
    let second = Tables::read(heap, numbers, Numbers::natural)?;
    shown(heap, &Pair::new(first.solid(), second.solid()))
}

fn sheets(numbers: &mut Numbers) -> anyhow::Result<Sheets> {
    let corners = numbers.size()?;
    let triangles = numbers.size()?;
    Sheets::new(corners, triangles / 2).context("no solid of this size")
}

// sizes, then the numbers of corners and of triangles of two solids: whether they make a pair
pub(crate) fn sizes(heap: Global, numbers: &mut Numbers) -> anyhow::Result<String> {
    let first = sheets(numbers)?;
    let second = sheets(numbers)?;
    let answer = Pair::check(&first, &second);
    told(heap, answer.and(Ok("fit")))
}
