//! The calls of the header on a caller of a service. Each tries once, and waits for nobody.

mod advance;
mod collect;
mod configure;
mod deliveries;
mod flows;
mod listing;
mod show;
mod submit;
mod wake;
