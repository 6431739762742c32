// The demands, over the exported calls: what is claimed in specs/, its proofs in proofs/. There is no code here.
#![tactic(auto)]
