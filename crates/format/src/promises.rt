// What a program over the lines needs: a function that does nothing, whose contract is the laws.
ghost use Rattle.format.specs.Laws.{Laws};

pub fn laws()
    ensures { Laws }
{}
