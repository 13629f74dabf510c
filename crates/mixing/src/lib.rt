// No code. specs/ has demand 3 (document 00; document 01, "Step by step"): the device's acts, mixings of its steps with the driver's, and the statement
// that mixing them makes no difference to what comes out; proofs/ has its proof.
#![tactic(auto)]
