// Facts on tests and lists that every layer uses. There is no code here.
#![tactic(auto)]
