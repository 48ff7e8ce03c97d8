//! What is in force for each pipe and queue, and how packets are treated by it.
pub mod commands;
pub mod configured;
pub mod queue_counts;
pub mod rates;
pub mod treatment;
