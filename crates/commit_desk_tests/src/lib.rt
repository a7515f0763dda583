//! Tests of the desk alone: two passes, and one slice or two.
#![tactic(auto)]

#[cfg(test)]
mod adding;
#[cfg(test)]
mod caller;
#[cfg(test)]
mod calls;
#[cfg(test)]
mod clearing;
#[cfg(test)]
mod draft;
#[cfg(test)]
mod filling;
#[cfg(test)]
mod finding;
#[cfg(test)]
mod leaving;
#[cfg(test)]
mod moving;
#[cfg(test)]
mod putting;
#[cfg(test)]
mod setting;
#[cfg(test)]
mod tuning;
