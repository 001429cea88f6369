// The dearest claim for a setup: its definitions and its proof. There is no code here; `dearest` has the call.
#![tactic(auto)]
