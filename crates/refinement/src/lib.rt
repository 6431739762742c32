// The words against the model: the relation in specs/, its proofs in proofs/. There is no code here.
#![tactic(auto)]
