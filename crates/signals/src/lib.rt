// Document 01's table "Signals that arrive" as printed: `specs/Table.antt`. No program: `calls` and `marks` do what it says, and `step` shows that.
#![tactic(auto)]
