// What a user of the decoder is promised: theorems over the definitions that the calls' contracts equal. No code.
#![tactic(auto)]
