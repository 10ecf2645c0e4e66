// What a host needs of runs: a function that does nothing, whose contract is the laws.
ghost use Rattle.run.specs.Laws.{Laws};

pub fn laws()
    ensures { Laws }
{}
