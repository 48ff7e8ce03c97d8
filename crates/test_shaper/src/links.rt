//! The example of the README.

use crate::example::holds;
use crate::flow::status;
use crate::key::pipe_key;
use crate::step::{collect, config, show, to_pipe};
use crate::wanted::{delivery, queued};
use dn_types::Rule;
use std::test::Fail;

// In the README of test_shaper, 1:
#[test]
fn one_caller_history(rt: HostRuntime) -> Result<(), Fail> {
    holds(
        &rt,
        Rule::Ordered,
        &[
            config("pipe 1 config bw 8Mbit/s"),
            to_pipe(1, 0, queued(0, 0, 0)),
            collect(1_000_000, &[delivery(0, 0, 0, 1_000_000)]),
            show(&[status(0, pipe_key(1), (0, 0), 1, 0)]),
        ],
    )
}
// Up to here.
