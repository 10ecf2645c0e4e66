// What holds of the definitions before any code: a function that does nothing, whose contract are the laws.
ghost use Rattle.overlap.specs.Laws.{Laws};

pub fn laws()
    ensures { Laws }
{}
