// What holds of the stepped check: functions that do nothing, whose contracts are the laws and the worked cases.
ghost use Rattle.stepping.specs.Cases.{Cases};
ghost use Rattle.stepping.specs.Laws.{Laws};

pub fn laws()
    ensures { Laws }
{}

pub fn cases()
    ensures { Cases }
{}
