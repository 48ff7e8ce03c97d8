//! Worked examples of the parts below the shaper, one file a part.
#![tactic(auto)]

#[cfg(test)]
mod active;
#[cfg(test)]
mod beside;
#[cfg(test)]
mod config;
#[cfg(test)]
mod flows;
#[cfg(test)]
mod given;
#[cfg(test)]
mod heap;
#[cfg(test)]
mod homes;
#[cfg(test)]
mod keys;
#[cfg(test)]
mod link;
#[cfg(test)]
mod on_new;
#[cfg(test)]
mod passing;
#[cfg(test)]
mod placed_heap;
#[cfg(test)]
mod placed_key;
#[cfg(test)]
mod pushes;
#[cfg(test)]
mod readme;
#[cfg(test)]
mod replies;
#[cfg(test)]
mod scheduler;
#[cfg(test)]
mod text;
#[cfg(test)]
mod types;
