// Signs of numbers, and the first of several that is not zero.
ghost use Rattle.std.specs.Prelude.{◌≡◌, neg_ℤ};
ghost use Rattle.geometry.specs.Signs.{sign_of};
ghost use Rattle.geometry.specs.Machine.{sign_is, first_sign};

// Whether a number is below, at or above 0: the field's word, where std's `Ordering` would say of two numbers how they compare.
#[derive(Clone, Copy, PartialEq, Eq, Debug)]
pub enum Sign {
    Negative,
    Zero,
    Positive,
}

impl Sign {
    // The sign of a number.
    pub fn of(number: i64) -> Sign
        ensures { sign_is result ≡ sign_of number }
    {
        if number < 0 {
            Sign::Negative
        } else if number == 0 {
            Sign::Zero
        } else {
            Sign::Positive
        }
    }

    // The sign of the number's negative, also where that would not fit. It is no plainer as the sign turned round: that is one more function.
    pub fn of_negative(number: i64) -> Sign
        ensures { sign_is result ≡ sign_of (neg_ℤ number) }
    {
        if number > 0 {
            Sign::Negative
        } else if number == 0 {
            Sign::Zero
        } else {
            Sign::Positive
        }
    }

    // This sign, or the other where this one is zero.
    pub fn or_else(self, other: Sign) -> Sign
        ensures { sign_is result ≡ first_sign (sign_is self) (sign_is other) }
    {
        match self {
            Sign::Zero => other,
            Sign::Negative | Sign::Positive => self,
        }
    }
}
