// What is proved of the definition; there is no code here.
#![tactic(auto)]
