//! Examples of space groups: the definitions of averages, keys, rows and changes of coordinates on literals, and the group of
//! `-x,-y,-z` with the nine rows of P-1 as its table. Laws alone, no code.
#![tactic(auto)]
