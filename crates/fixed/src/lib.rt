// The fixed examples that are proved: specs/Examples.antt states them as one claim about the definitions.
#![tactic(auto)]
