// A tour of the library on a small job: which points of a flat roof does the south face of a chimney shade, with the sun at a given
// bearing? It prints each step that it takes.
#![tactic(auto)]

mod roof;
mod shade;

use geometry::facet::Facet;
use geometry::light::Bearing;
use geometry::units::Point;

// The chimney's south face is two triangles, their outside to the south (y grows southwards).
fn faces() -> [Facet; 2] {
    let foot_west = Point::new(64, 64, 0);
    let foot_east = Point::new(96, 64, 0);
    let top_west = Point::new(64, 64, 160);
    let top_east = Point::new(96, 64, 160);
    [
        Facet {
            a: foot_west,
            b: top_east,
            c: foot_east,
        },
        Facet {
            a: foot_west,
            b: top_west,
            c: top_east,
        },
    ]
}

fn tour(rt: &HostRuntime) -> anyhow::Result<()> {
    println!(rt;
        "Lengths are in steps, a sixteenth of a pixel's side. x grows to the east, y to the south, z upwards."
    )?;
    let bearing = Bearing {
        dx: 0,
        dy: 1,
        dz: 4,
    };
    println!(rt;
        "The sun is in the south, at the bearing {} {} {}.",
        bearing.dx, bearing.dy, bearing.dz
    )?;
    // a match and no `?`: a refusal is a line of the tour, and no error of the program
    let run = match bearing.turn() {
        Ok(run) => run,
        Err(refusal) => {
            println!(rt; "{refusal}")?;
            return Ok(());
        }
    };
    println!(rt;
        "Turned round, that is the run of the light: {} {} {}.",
        run.dx, run.dy, run.dz
    )?;
    let faces = faces();
    for face in faces {
        shade::show_face(rt, run, face)?;
    }
    shade::show_points(rt, run, &faces)?;
    roof::tour(rt)
}

fn main(rt: HostRuntime) -> anyhow::Result<()> {
    tour(&rt)
}
