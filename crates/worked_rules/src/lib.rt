//! Worked runs of the rules, computed: each lemma says what stands in the transcript of a script. Nothing here runs.
#![tactic(auto)]
