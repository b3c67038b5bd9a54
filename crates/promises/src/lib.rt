// What is promised, stated in specs/ and proved by citing the laws where they live. There is no code to call.
#![tactic(auto)]
