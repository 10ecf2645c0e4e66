// What the answers mean by the relations of document 01: a function that does nothing, whose contract is the laws.
ghost use Rattle.matching.specs.Laws.{Laws};

pub fn laws()
    ensures { Laws }
{}
