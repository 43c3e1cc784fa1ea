// Frames taken and write errors met over a list of calls, how many they can be, and lists made to go as is wanted. There is nothing to call.
#![tactic(auto)]
