// No code: setup blocks and demand 3, over the definitions that the contracts of the crate hub cite. specs/ has the
// claim, proofs/ its proof.
#![tactic(auto)]
