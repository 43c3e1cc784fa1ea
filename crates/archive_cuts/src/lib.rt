// What a list of calls leaves on tape wherever the power goes, and what a reading gives of it. There is nothing to call.
#![tactic(auto)]
