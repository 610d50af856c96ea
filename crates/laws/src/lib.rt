// Laws that know nothing of the core: tests and their two readings, choices, lists and tables. No function:
// the definitions are in specs/, each with its laws.
#![tactic(auto)]
