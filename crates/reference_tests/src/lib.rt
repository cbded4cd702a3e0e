// What the reference answers and refuses, by examples.
#![tactic(auto)]

#[cfg(test)]
mod answers;
#[cfg(test)]
mod calls;
#[cfg(test)]
mod depth;
#[cfg(test)]
mod names;
#[cfg(test)]
mod outliving;
#[cfg(test)]
mod refusals;
#[cfg(test)]
mod tables;
