// What holds of the definitions before any code: functions that do nothing, whose contracts are the laws, the three demands, Case T and gaps.
ghost use Rattle.table.specs.CaseT.{CaseT};
ghost use Rattle.table.specs.Demand1.{Demand1};
ghost use Rattle.table.specs.Demand2.{Demand2};
ghost use Rattle.table.specs.Demand3.{Demand3};
ghost use Rattle.table.specs.Gap.{GapLaws};
ghost use Rattle.table.specs.GapCases.{GapCases};
ghost use Rattle.table.specs.Laws.{Laws};

pub fn laws()
    ensures { Laws }
{}

pub fn demand_1()
    ensures { Demand1 }
{}

pub fn demand_2()
    ensures { Demand2 }
{}

pub fn demand_3()
    ensures { Demand3 }
{}

pub fn case_t()
    ensures { CaseT }
{}

pub fn gaps()
    ensures { GapLaws }
{}

pub fn gap_cases()
    ensures { GapCases }
{}
