// What a direction comes to over numbered cycles, and that the negative one is the positive one's mirror. Theorems, and no function.
#![tactic(auto)]
