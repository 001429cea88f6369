// The claim over every list of events: no code. Read specs/Claim.antt first.
#![tactic(auto)]
