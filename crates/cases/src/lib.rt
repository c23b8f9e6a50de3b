#![tactic(auto)]
// Worked cases, proved against the definitions.
ghost use Rattle.cases.specs.Cases.{WorkedCases};

// Every row of the table comes to what the table says.
pub fn worked_cases_hold()
    ensures { WorkedCases }
{}
