// A survey of a small roof with a chimney, from beginning to end.
use geometry::light::Run;
use geometry::refusal::Refusal;
use geometry::units::{Column, Point, Row, Step};
use planes::linear::LinearPlane;
use planes::plane::Plane;
use solids::matching::match_sides;
use solids::solid::{Solid, Triangle};
use solids::table::TableSolid;
use survey::casting::cast;
use survey::laying::{begin, close, lay};
use survey::mark::Mark;
use survey::reading::look;
use survey::state::Casting;

const WIDTH: usize = 16;

const ROWS: usize = 9;

// A box of the chimney's size: its eight corners, the four below first.
fn corners() -> [Point; 8] {
    let (west, east) = (96, 144);
    let (north, south) = (64, 96);
    let (foot, top) = (0, 64);
    [
        Point::new(west, north, foot),
        Point::new(east, north, foot),
        Point::new(east, south, foot),
        Point::new(west, south, foot),
        Point::new(west, north, top),
        Point::new(east, north, top),
        Point::new(east, south, top),
        Point::new(west, south, top),
    ]
}

// Its twelve triangles, each seen from outside against the clock.
const TRIANGLES: [Triangle; 12] = [
    Triangle { a: 0, b: 2, c: 1 },
    Triangle { a: 0, b: 3, c: 2 },
    Triangle { a: 4, b: 5, c: 6 },
    Triangle { a: 4, b: 6, c: 7 },
    Triangle { a: 0, b: 1, c: 5 },
    Triangle { a: 0, b: 5, c: 4 },
    Triangle { a: 1, b: 2, c: 6 },
    Triangle { a: 1, b: 6, c: 5 },
    Triangle { a: 2, b: 3, c: 7 },
    Triangle { a: 2, b: 7, c: 6 },
    Triangle { a: 3, b: 0, c: 4 },
    Triangle { a: 3, b: 4, c: 7 },
];

// The character of a mark. Text by a match is plainer than a type of its own for Display, which Mark cannot get here; with the one for a sign
// it shares no more than that.
fn letter(mark: Mark) -> &'static str {
    match mark {
        Mark::Shaded => "#",
        Mark::Unsure => "?",
        Mark::Lit => ".",
    }
}

// The plan as characters, a row to a line.
fn show_plan<P: Plane>(rt: &HostRuntime, survey: &Casting, plane: &P) -> anyhow::Result<()> {
    for j in 0..plane.rows() {
        for i in 0..plane.width() {
            let seen = look(survey, plane, Column(i), Row(j));
            rt.print(seen.map_or(" ", |(mark, _, _)| letter(mark)))?;
        }
        rt.println("")?;
    }
    Ok(())
}

// One pixel, with its count and the survey's total.
fn show_pixel<P: Plane>(
    rt: &HostRuntime,
    survey: &Casting,
    plane: &P,
    column: Column,
    row: Row,
) -> anyhow::Result<()> {
    let (Column(i), Row(j)) = (column, row);
    match look(survey, plane, column, row) {
        Ok((mark, count, total)) => {
            let text = letter(mark);
            println!(rt; "look at column {i}, row {j}: {text}, count {count}, total {total}")?;
        }
        Err(refusal) => println!(rt; "look at column {i}, row {j}: {refusal}")?,
    }
    Ok(())
}

// A call, and whether it was done or refused.
fn tell(rt: &HostRuntime, call: &str, answer: Result<(), Refusal>) -> anyhow::Result<()> {
    match answer {
        Ok(()) => println!(rt; "{call}: done")?,
        Err(refusal) => println!(rt; "{call}: {refusal}")?,
    }
    Ok(())
}

// begin, lay, close, cast twice, look.
fn survey<P: Plane, S: Solid>(rt: &HostRuntime, plane: &mut P, solid: &S) -> anyhow::Result<()> {
    // a match and no `?`: a refusal is a line of the tour, and no error of the program
    let laying = match begin(plane, Step(0)) {
        Ok(laying) => laying,
        Err(refusal) => {
            println!(rt; "begin: {refusal}")?;
            return Ok(());
        }
    };
    println!(rt; "begin on the ground 0: done")?;
    let laid = lay(&laying, plane, solid);
    tell(rt, "lay the chimney", laid)?;
    let mut casting = close(laying);
    println!(rt; "close: done")?;
    let morning = Run {
        dx: -2,
        dy: -1,
        dz: -2,
    };
    let first = cast(&mut casting, plane, solid, morning);
    tell(rt, "cast along -2 -1 -2", first)?;
    show_plan(rt, &casting, plane)?;
    let level = Run {
        dx: 1,
        dy: 0,
        dz: 0,
    };
    let second = cast(&mut casting, plane, solid, level);
    tell(rt, "cast along 1 0 0, which never falls", second)?;
    show_pixel(rt, &casting, plane, Column(4), Row(3))?;
    show_pixel(rt, &casting, plane, Column(12), Row(8))?;
    show_pixel(rt, &casting, plane, Column(16), Row(0))
}

pub(crate) fn tour(rt: &HostRuntime) -> anyhow::Result<()> {
    let corners = corners();
    let mut partners = [0u32; 36];
    println!(rt; "A chimney of 8 corners and 12 triangles on a roof of {WIDTH} x {ROWS} pixels.")?;
    if match_sides(&corners, &TRIANGLES, &mut partners).is_err() {
        println!(rt; "match: refused")?;
        return Ok(());
    }
    println!(rt; "match: each side has its partner")?;
    let mut solid = TableSolid::empty();
    if solid.load(&corners, &TRIANGLES, &partners).is_err() {
        println!(rt; "load: refused")?;
        return Ok(());
    }
    println!(rt; "load: a solid of {} triangles", solid.triangles())?;
    let mut heights = [0i32; WIDTH * ROWS];
    let mut counts = [0u16; WIDTH * ROWS];
    let mut plane = LinearPlane::new(&mut heights, &mut counts, WIDTH, ROWS);
    survey(rt, &mut plane, &solid)
}
