// Upload plans at the front end, and what holds over several packets (see specs/ and proofs/).
#![tactic(auto)]

ghost use Rattle.end_to_end.specs.EndToEnd.{EndToEnd};

// Nothing to run: its contract is the list of theorems.
pub fn theorems()
    ensures { EndToEnd }
{}
