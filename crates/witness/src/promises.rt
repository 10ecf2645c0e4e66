// What holds of the definitions before any code: a function that does nothing, whose contract are the laws.
ghost use Rattle.witness.specs.Laws.{Laws};

pub fn laws()
    ensures { Laws }
{}
