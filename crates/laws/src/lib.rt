// Laws of no one subject, said once: what is never so, and what a Boolean and its parts say of each other. No function.
#![tactic(auto)]
