// What the reader and the writer of a day file make of each other's files: no code.
#![tactic(auto)]
