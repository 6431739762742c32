// The pool's calls on the words, as definitions. There is no code here.
#![tactic(auto)]
