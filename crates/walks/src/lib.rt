// No code: proofs/ has the steps that proofs by hand share.
#![tactic(auto)]
