// Faces and points of the tour, and what the strike test says of them.
use geometry::facet::Facet;
use geometry::light::Run;
use geometry::sign::Sign;
use geometry::strike::plane_side;
use geometry::units::{Column, Point, Row, Step};
use geometry::vector::{Vector, cross, difference};

fn show_vector(rt: &HostRuntime, name: &str, v: Vector) -> anyhow::Result<()> {
    println!(rt; "  {name} {} {} {}", v[0], v[1], v[2])?;
    Ok(())
}

// A face's corners and normal, and whether it is turned to the light.
pub(crate) fn show_face(rt: &HostRuntime, run: Run, face: Facet) -> anyhow::Result<()> {
    println!(rt; "A face:")?;
    for corner in [face.a, face.b, face.c] {
        show_vector(rt, "corner", corner.into())?;
    }
    show_vector(rt, "normal", face.normal())?;
    let turned = if face.is_sunward(run) {
        "sunward"
    } else {
        "not sunward"
    };
    println!(rt; "  {turned}")?;
    Ok(())
}

// The character of a sign. Text by a match is plainer than a type of its own for Display, which Sign cannot get here.
fn letter(side: Sign) -> &'static str {
    match side {
        Sign::Negative => "-",
        Sign::Zero => "0",
        Sign::Positive => "+",
    }
}

// The side of the point at the plane through the side from u to v along the light.
fn along(run: Run, u: Point, v: Point, p: Point) -> &'static str {
    let u = Vector::from(u);
    let wall = cross(run.into(), difference(v.into(), u));
    letter(plane_side(wall, u, p.into()))
}

// The four sides of a point at a face, and whether the face strikes it.
fn show_strike(rt: &HostRuntime, run: Run, face: Facet, p: Point) -> anyhow::Result<()> {
    let front = letter(plane_side(face.normal(), face.a.into(), p.into()));
    let ab = along(run, face.a, face.b, p);
    let bc = along(run, face.b, face.c, p);
    let ca = along(run, face.c, face.a, p);
    let answer = match face.strike(run, p) {
        Ok(true) => "struck",
        Ok(false) => "not struck",
        Err(_) => "refused",
    };
    println!(rt; "    sides {front} {ab} {bc} {ca}: {answer}")?;
    Ok(())
}

// The points of the roof, one in the middle of each pixel, row by row from the north.
pub(crate) fn show_points(rt: &HostRuntime, run: Run, faces: &[Facet]) -> anyhow::Result<()> {
    for j in 0..5u16 {
        for i in 4..7u16 {
            let x = Column(i).sample();
            let y = Row(j).sample();
            let p = Point { x, y, z: Step(0) };
            println!(rt; "  column {i}, row {j}, the point {} {} 0:", x.0, y.0)?;
            for face in faces {
                show_strike(rt, run, *face, p)?;
            }
        }
    }
    Ok(())
}
