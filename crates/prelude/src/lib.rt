// Definitions and laws about tests and lists that every other crate uses: see specs/ and proofs/. There is no code.
#![tactic(auto)]
