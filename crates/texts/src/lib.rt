// Results written as texts: what the reading of a text shows. The code that evaluates a template from the rows that hold it is in `copying`.
#![tactic(auto)]
