// The plain promises determine every answer: two outcomes of an entry that both meet them are equal
// (see specs/ and proofs/).
#![tactic(auto)]

ghost use Rattle.promises.specs.Determined.{Named, OnNumbers, OnBytes, ForC};
ghost use Rattle.promises.specs.Promised.{Promised};

// Nothing to run: its contract is the list. What the names mean that plain promises and contracts
// cite; that each contract has its plain promise in it; and each entry's theorem, on numbers, on
// bytes and for C.
pub fn determined()
    ensures { Named × Promised × OnNumbers × OnBytes × ForC }
{}
