//! What the files of a store say, as definitions: which runs and which engine log are live, what the log's records leave, and the versions
//! of each family; or the first offence of these files, with its file and place.
#![tactic(auto)]
