// No code: the register writes of a trace, over the definitions that the crates tracewrites and playback cite.
// specs/ has the claims, proofs/ their proofs.
#![tactic(auto)]
