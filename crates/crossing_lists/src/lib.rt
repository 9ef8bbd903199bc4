// A list's answer as it crosses to a program in another language. Definitions and laws, and no function.
#![tactic(auto)]
