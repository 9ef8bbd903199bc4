// What is wrong with a list or with the lists of a kit, and where: definitions and laws, and no function.
#![tactic(auto)]
