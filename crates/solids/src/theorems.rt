// What is proved about tables beyond the contracts of single calls.
ghost use Rattle.solids.specs.Tables.{OneVerdict};

// Tables have one fault at most, or one partner list at most, and never both: so the contracts of `match_sides` and of
// `TableSolid::load` tell their answers for all input.
pub fn verdicts_are_one()
    ensures { OneVerdict }
{}
