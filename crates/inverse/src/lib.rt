// The reader and the writer of messages are inverse to each other: laws over the definitions that their contracts cite. No code is here.
#![tactic(auto)]
