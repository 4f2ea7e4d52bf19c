// What is wrong with tables that make no solid, and where.
ghost use Rattle.std.specs.Prelude.{◌≡◌};

use geometry::refusal::Refusal;

// The part of the tables that a refusal is about. `Nowhere` is one case of five, so that a caller's match has one level, not two.
#[derive(Clone, Copy, PartialEq, Eq, Debug)]
pub enum Site {
    // no part of them
    Nowhere,
    // the corner of a number
    Corner(usize),
    // the triangle of a number
    Triangle(usize),
    // the side at a place
    Place(usize),
    // the partner list, by its length
    Partners(usize),
}

// Why tables are refused, and where the first fault is.
#[derive(Clone, Copy, PartialEq, Eq, Debug)]
pub struct Misfit {
    pub refusal: Refusal,
    pub site: Site,
}

impl Misfit {
    // A misfit in one line, where a literal takes four at each refusal.
    pub(crate) fn new(refusal: Refusal, site: Site) -> Misfit
        ensures { result ≡ record { refusal = refusal; site = site } }
    {
        Misfit { refusal, site }
    }
}
