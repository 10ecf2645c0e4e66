// What holds of the definitions before any code: a function that does nothing, whose contract is the law.
ghost use Rattle.meeting.specs.Laws.{Laws};

pub fn laws()
    ensures { Laws }
{}
