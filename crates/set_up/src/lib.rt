// A node that needs version 2 of certificates, and why that version is whole. All here is definitions and laws.
#![tactic(auto)]
