// What holds of the definitions before any code: functions that do nothing, whose contracts are the laws and the worked cases.
ghost use Rattle.signature.specs.Laws.{Laws};
ghost use Rattle.signature.specs.Cases.{Cases};

pub fn laws()
    ensures { Laws }
{}

pub fn cases()
    ensures { Cases }
{}
