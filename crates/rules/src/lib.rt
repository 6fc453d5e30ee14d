// What the code shares with document 01's definitions in specs/: the record number's own type, the limits and codes, the kinds of
// refusals, and the answers of the calls. Each constant is tied to the definition of the same name by a function that ensures it.
#![tactic(auto)]

pub mod answers;
pub mod codes;
pub mod kinds;
pub mod limits;
pub mod record;
