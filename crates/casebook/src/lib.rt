// The definitions on given blocks: cases of document 01, and blocks that separate software filled too.
#![tactic(auto)]
