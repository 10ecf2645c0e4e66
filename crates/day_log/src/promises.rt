// What holds of the definitions before any code: functions that do nothing, whose contracts are the laws and the worked cases.
ghost use Rattle.day_log.specs.Cases.{Cases};
ghost use Rattle.day_log.specs.Laws.{Laws};

pub fn laws()
    ensures { Laws }
{}

pub fn cases()
    ensures { Cases }
{}
