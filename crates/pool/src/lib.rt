// The pool on values: blocks one by one, over the model's heap. There is no code here.
#![tactic(auto)]
