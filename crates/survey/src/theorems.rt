// What is proved of whole surveys. Each function promises a theorem.
ghost use Rattle.survey.specs.Cases.{FourteenCases};
ghost use Rattle.survey.specs.Greatest.{HeightsAreGreatest};
ghost use Rattle.survey.specs.Law.{SurveysObey};

// Fourteen worked cases.
pub fn cases_stand()
    ensures { FourteenCases }
{}

// A survey ends with the account of its accepted calls, and its marks tell the truth, whatever was refused on the way.
pub fn surveys_obey()
    ensures { SurveysObey }
{}

// The height of a receiver is the greatest of the ground and of all that was laid there, in whatever order.
pub fn heights_are_greatest()
    ensures { HeightsAreGreatest }
{}
