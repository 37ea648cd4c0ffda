// No code: every packet of a frame event is read back, over the definitions that the crates frames, reader and
// unpacking cite. specs/ has the claims, proofs/ their proofs.
#![tactic(auto)]
