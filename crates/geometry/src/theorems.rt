// What is proved of the strike test itself. Each function promises a theorem.
ghost use Rattle.geometry.specs.Theorems.{SidesArePerturbed, StrikesAreDecided, LengthIsFree};
ghost use Rattle.geometry.specs.Cases.{Cases};

// The side of a point at a plane is the sign of a perturbed number.
pub fn sides_are_perturbed()
    ensures { SidesArePerturbed }
{}

// No side that the strike test of a sunward triangle asks for is 0.
pub fn strikes_are_decided()
    ensures { StrikesAreDecided }
{}

// Only the light's direction matters to a strike.
pub fn length_is_free()
    ensures { LengthIsFree }
{}

// Eight worked cases.
pub fn cases_stand()
    ensures { Cases }
{}
