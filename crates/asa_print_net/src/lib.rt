//! Printing of route lines. What is printed of a route that can be configured is read back as that route.
#![tactic(auto)]

mod route;

pub use route::push_route;

#[cfg(test)]
mod tests;
