// What is proved on bytes; no code. Written rows are accepted and read back as they were; an accepted text is the written form of its
// rows; what tidy writes is accepted, as long as the text, and tidy of it is the same bytes; the part told for a record holds its
// content.
#![tactic(auto)]
