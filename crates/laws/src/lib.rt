// No code. specs/ has what follows from the rules alone.
#![tactic(auto)]
