// The archive: certificates of version 1, which no code accepts any more. All here is definitions and laws.
#![tactic(auto)]
