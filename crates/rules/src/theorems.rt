// What is proved of texts and jobs. Each function promises a theorem.
ghost use Rattle.rules.specs.Theorems.{OneVerdict, JobsAreAccepted};

// A text is refused in one way or accepted in one way, and not both.
pub fn one_verdict()
    ensures { OneVerdict }
{}

// The texts that are accepted are those of the jobs that obey the rules and fit.
pub fn jobs_are_accepted()
    ensures { JobsAreAccepted }
{}
