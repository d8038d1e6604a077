// What holds after every list of calls: definitions and proofs over `calls`, see specs/ and proofs/. There is no code.
#![tactic(auto)]
