//! What the objects over the machine do, of which no clause tells the content.
#![tactic(auto)]

#[cfg(test)]
mod host;
