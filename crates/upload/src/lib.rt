// Upload planning: definitions and theorems (see specs/ and proofs/).
#![tactic(auto)]
