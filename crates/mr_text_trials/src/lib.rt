//! Tests of what texts give: statements by the grammar, definitions by their checks, and definitions as bytes.
#![tactic(auto)]

#[cfg(test)]
mod forms;
#[cfg(test)]
mod texts;
