// What each request left as it was: no function, the rules as they stood and theorems over the definitions.
#![tactic(auto)]
