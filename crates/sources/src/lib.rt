// What a run reads from the bytes of a table and from where its texts are held: the productions of the table that it is elaborated to. There is no code here.
#![tactic(auto)]
