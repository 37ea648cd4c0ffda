// No code: a script that is run and a trace that is played, explained by their lines and records; and a script with its
// blocks in another order. All over the definitions that the crates origins, ordering, scriptwrites, tracewrites and
// playback cite. specs/ has the claims, proofs/ their proofs.
#![tactic(auto)]
