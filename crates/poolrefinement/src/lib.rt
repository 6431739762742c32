// The pool's words against the pool on values: the relation in specs/, its proofs in proofs/. There is no code here.
#![tactic(auto)]
