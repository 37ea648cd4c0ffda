// No code: the text of a trace, read again, over the definitions that the crates script, listing and playback cite.
// specs/ has the claims, proofs/ their proofs.
#![tactic(auto)]
