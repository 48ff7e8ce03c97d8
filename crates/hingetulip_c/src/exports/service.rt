//! The calls of the header on a service.

mod hand_out;
mod open;
mod take;
mod text;
mod texts;
