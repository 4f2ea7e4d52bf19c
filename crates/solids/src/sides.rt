// The directed sides of triangles, and the search for a side's partner.
ghost use Rattle.std.specs.Prelude.{◌≡◌, ◌<◌, ◌≤◌, ◌&&◌, length, replicate, MatchOption, ◌==◌};
ghost use Rattle.solids.specs.Tables.{sides, side_start, side_end, Partners, PairedAt};
ghost use Rattle.solids.specs.Chains.{mixed, key_of, Linked};

use crate::solid::Triangle;

// The most corners and the most triangles that tables may have, and the most places of sides.
pub(crate) const MOST: usize = 4096;

pub(crate) const MOST_PLACES: usize = 12288;

// A side as it runs from one corner to another, by their numbers.
#[derive(Clone, Copy, PartialEq, Eq)]
struct Side {
    from: u32,
    to: u32,
}

// Takes the corner numbers below 4,096 to other such numbers, modulo 4,096, so that neighbours lie apart.
fn mix(number: u32) -> usize
    ensures is { result ≡ mixed number }
    ensures low { result ≤ 33542145 }
{
    let number = number as usize % MOST;
    number * (2 * number + 1)
}

impl Side {
    // The side at a place.
    fn at(triangles: &[Triangle], place: usize) -> Side
        requires { place < sides triangles.now }
        ensures start { result.from ≡ side_start triangles.now place }
        ensures end { result.to ≡ side_end triangles.now place }
    {
        let Triangle { a, b, c } = triangles[place / 3];
        match place % 3 {
            0 => Side { from: a, to: b },
            1 => Side { from: b, to: c },
            _ => Side { from: c, to: a },
        }
    }

    // The side that joins the same corners the other way.
    fn reversed(self) -> Side
        ensures { (result.from ≡ self.to) × (result.to ≡ self.from) }
    {
        Side {
            from: self.to,
            to: self.from,
        }
    }

    // The chain that holds the side and its reverse.
    fn key(self) -> usize
        ensures { result ≡ key_of self.from self.to }
    {
        (mix(self.from) + mix(self.to)) % MOST
    }
}

// The sides of triangles, each in the chain of its key: a head for each key, and from each place a link to the one before it, in arrays on
// the stack of whoever links them, since a rule of the project allows no heap: kept in here, they would be copied to where the chains are
// used. 0 ends a chain, and other numbers are one more than a place: with `Option<u16>` in their stead 4,096 triangles took a tenth longer,
// and matching should get no slower.
#[derive(Drop)]
pub(crate) struct Chains<'a> {
    triangles: &'a [Triangle],
    heads: &'a [u32],
    links: &'a [u32],
    ghost few: { length triangles.now ≤ 4096 },
    ghost full: { length heads.now ≡ 4096 },
    ghost room: { sides triangles.now ≤ length links.now },
    ghost linked: { Linked triangles.now (sides triangles.now) heads.now links.now },
}

impl<'a> Chains<'a> {
    // Puts the places of all sides into chains, in two lists: of 4,096 zeros, and with a place for each side.
    pub(crate) fn link(
        triangles: &'a [Triangle],
        heads: &'a mut [u32],
        links: &'a mut [u32],
    ) -> Chains<'a>
        requires few { length triangles.now ≤ 4096 }
        requires clear { heads.old ≡ replicate 4096 0 }
        requires room { sides triangles.now ≤ length links.old }
        ensures { result.triangles.now ≡ triangles.now }
    {
        // by place: each writes to two lists, by itself and by its key, and `links` may have room for more places than there are
        for place in 0..3 * triangles.len() {
            let key = Side::at(triangles, place).key();
            links[place] = heads[key];
            heads[key] = place as u32 + 1;
        }
        Chains {
            triangles,
            heads,
            links,
        }
    }

    // The partner of the side at a place: none where the pairing rule fails there.
    pub(crate) fn partner_of(&self, place: usize) -> Option<usize>
        requires { place < sides self.now.triangles.now }
        ensures { MatchOption result (PairedAt self.now.triangles.now place → ⊥) (λ p. Partners self.now.triangles.now place p) }
    {
        let side = Side::at(self.triangles, place);
        let reverse = side.reversed();
        let mut found = None;
        let mut ahead = self.heads[side.key()] as usize;
        // a chain is walked by its links: an iterator over them would be this loop in a type of its own
        while ahead > 0 {
            let here = ahead - 1;
            let other = Side::at(self.triangles, here);
            if other == side && here != place {
                return None;
            }
            if other == reverse {
                if found.is_some() {
                    return None;
                }
                found = Some(here);
            }
            ahead = self.links[here] as usize;
        }
        found
    }
}
