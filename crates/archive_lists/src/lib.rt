// The cartridge, the drive's conduct and lists of the calls of one session, and what holds at every point of them. There is nothing to call.
#![tactic(auto)]
