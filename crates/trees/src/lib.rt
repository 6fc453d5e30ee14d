// Theorems on facts, trees and the merge, over the definitions of `rules`; no code. A readable table is a tree with exactly its
// facts, and the rows of a tree are a readable table of it. A merge is accepted exactly if some tree holds every edit and no fact
// absent from all tables, and gives that tree, of which there is one. Nothing is assumed.
#![tactic(auto)]
