// What is proved of lines. Each function promises a theorem.
ghost use Rattle.text.specs.Theorems.{OneReading};

// A line says one thing, or is refused in one way, and not both.
pub fn one_reading()
    ensures { OneReading }
{}
