// Takes, releases and group releases on the words, as definitions. There is no code here.
#![tactic(auto)]
