// The marks of pixels.
ghost use Rattle.std.specs.Prelude.{◌≡◌};
ghost use Rattle.survey.specs.Survey.{mark_of, grey_of};

// What a survey says of a pixel, with the grey that stands for it in a picture.
#[derive(Clone, Copy, PartialEq, Eq, Debug)]
pub enum Mark {
    // some triangle keeps the light from it
    Shaded = 0,
    // its count may have wrapped
    Unsure = 128,
    // nothing keeps the light from it
    Lit = 255,
}

impl Mark {
    // The mark of a count below the modulus, when so many sunward triangles were cast.
    pub(crate) fn of(modulus: u32, count: u32, total: u32) -> Mark
        ensures { result ≡ mark_of modulus count total }
    {
        if count != 0 {
            Mark::Shaded
        } else if total < modulus {
            Mark::Lit
        } else {
            Mark::Unsure
        }
    }
}

// The grey of a mark.
impl From<Mark> for u8 {
    ghost from_gives = { λ mark grey. grey ≡ grey_of mark };

    fn from(mark: Mark) -> u8 {
        mark as u8
    }
}
