// No code: definitions and laws that several crates cite. specs/ has the definitions, proofs/ the laws.
#![tactic(auto)]
