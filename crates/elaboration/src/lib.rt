// Tables as written, elaborated to tables with a template for each result, as a definition and by rules. The code is in `bodies` and `sorts`.
#![tactic(auto)]
