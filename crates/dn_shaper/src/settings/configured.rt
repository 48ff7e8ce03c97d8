ghost use Rattle.std.specs.Prelude.{◌≡◌, ℕ, List, None, IfSome, OnErr, OnOk, Some, is_some};
ghost use Rattle.std.specs.Option.{option_copied, option_map};
ghost use Rattle.dn_types.specs.Configuration.{command_reply, has_queues, subject};
ghost use Rattle.dn_types.specs.Flows.{treatment};
ghost use Rattle.dn_types.specs.declared.target.Target.{Target as TargetValue};
ghost use Rattle.dn_shaper.specs.Refinement.Agreement.{GivesRates};
ghost use Rattle.dn_shaper.specs.Refinement.Configuring.{IsAnswered, Lists, Puts};
ghost use Rattle.dn_shaper.specs.Refinement.QueueCounts.{named_pipe};
ghost use Rattle.dn_shaper.specs.Refinement.Settings.{settings_of};
ghost use Rattle.dn_shaper.specs.Refinement.Submitting.{treatment_of};

use crate::settings::commands::Commands;
use crate::settings::queue_counts::QueueCounts;
use crate::settings::rates::Rates;
use crate::settings::treatment::Treatment;
use dn_flows::DropRule;
use dn_types::{Bandwidth, Buckets, Command, Delay, Limit, Mask, Number, Reply, Target, Weight};
use std::alloc::{AllocError, Global};
use std::marker::Model;

/// The pipe or the queue that a command is about.
fn subject(command: &Command) -> Target
    ensures { result ≡ subject command.now }
{
    match command {
        Command::Pipe { number, .. } | Command::DeletePipe(number) => Target::Pipe(*number),
        Command::Queue { number, .. } | Command::DeleteQueue(number) => Target::Queue(*number),
    }
}

/// The pipe that is named by the queue, where this is in force for one.
fn named_pipe(setting: Option<&Command>) -> Option<Number>
    ensures { result ≡ named_pipe (option_copied setting.entry) }
{
    match setting {
        Some(Command::Queue { pipe, .. }) => Some(*pipe),
        _ => None,
    }
}

/// How packets are treated where the command is in force. A pipe's own packets have weight 1.
fn treatment_by(target: &Target, command: &Command) -> Option<Treatment>
    ensures value { option_map treatment_of result ≡ treatment (Some command.now) }
    ensures target { IfSome result (λ how. how.target ≡ target.now) }
{
    match command {
        Command::Pipe {
            number,
            limit,
            loss,
            mask,
            ..
        } => Some(Treatment {
            target: *target,
            pipe: *number,
            weight: Weight::new(1).unwrap(),
            mask: *mask,
            drops: DropRule {
                limit: *limit,
                loss: *loss,
            },
        }),
        Command::Queue {
            pipe,
            weight,
            limit,
            loss,
            mask,
            ..
        } => Some(Treatment {
            target: *target,
            pipe: *pipe,
            weight: *weight,
            mask: *mask,
            drops: DropRule {
                limit: *limit,
                loss: *loss,
            },
        }),
        _ => None,
    }
}

/// The commands that are in force for pipes and for queues, and with each pipe the count of its queues.
///
/// Contracts see the commands.
#[derive(Drop)]
pub struct Configured {
    pipes: Commands,
    queues: Commands,
    counts: QueueCounts,
}

impl Model for Configured {
    ghost use Rattle.dn_shaper.specs.Refinement.QueueCounts.{CountsQueues};
    ghost use Rattle.dn_shaper.specs.Refinement.Settings.{InForce};

    ghost Value = { InForce };

    ghost view = { λ a. record { pipes = a.pipes; queues = a.queues } };

    ghost invariant = { λ a. CountsQueues (record { pipes = a.pipes; queues = a.queues }) a.counts };
}

impl Configured {
    /// No pipe and no queue. It takes no memory.
    pub fn new(alloc: Global) -> Configured
        ensures none { (target : TargetValue) → settings_of result target ≡ None }
    {
        Configured {
            pipes: Commands::new(alloc),
            queues: Commands::new(alloc),
            counts: QueueCounts::new(alloc),
        }
    }

    /// The command that is in force for the pipe or the queue.
    fn command(&self, target: Target) -> Option<&Command>
        ensures { option_copied result ≡ settings_of self.now target }
    {
        match target {
            Target::Pipe(number) => self.pipes.get(number),
            Target::Queue(number) => self.queues.get(number),
        }
    }

    /// The bandwidth and the delay of a pipe, which are 0 where it has no configuration.
    pub fn rates(&self, pipe: Number) -> Rates
        ensures { GivesRates (settings_of self.now) pipe result.bandwidth result.delay }
    {
        match self.command(Target::Pipe(pipe)) {
            Some(Command::Pipe { bw, delay, .. }) => Rates {
                bandwidth: *bw,
                delay: *delay,
            },
            _ => Rates {
                bandwidth: Bandwidth::new(0).unwrap(),
                delay: Delay::new(0).unwrap(),
            },
        }
    }

    /// How packets to a target are treated, where it is configured.
    pub fn treatment(&self, target: Target) -> Option<Treatment>
        ensures value { option_map treatment_of result ≡ treatment (settings_of self.now target) }
        ensures target { IfSome result (λ how. how.target ≡ target) }
    {
        match self.command(target) {
            Some(command) => treatment_by(&target, command),
            None => None,
        }
    }

    /// Whether the pipe or the queue is configured.
    fn has(&self, target: Target) -> bool
        ensures { result ≡ is_some (settings_of self.now target) }
    {
        self.command(target).is_some()
    }

    /// Whether a configured queue names the pipe.
    fn has_queues(&self, pipe: Number) -> bool
        ensures { (queues : List ℕ) → Lists (settings_of self.now) queues → result ≡ has_queues (settings_of self.now) queues pipe }
    {
        self.counts.of(pipe) > 0
    }

    /// How a command is answered.
    pub fn reply(&self, command: &Command) -> Reply
        ensures { (queues : List ℕ) → Lists (settings_of self.now) queues → result ≡ command_reply (settings_of self.now) queues command.now }
    {
        match command {
            Command::Pipe { .. } => Reply::Configured,
            Command::Queue { pipe, .. } => {
                if self.has(Target::Pipe(*pipe)) {
                    Reply::Configured
                } else {
                    Reply::NoSuchPipe
                }
            }
            Command::DeletePipe(number) => {
                if !self.has(Target::Pipe(*number)) {
                    Reply::NoSuchPipe
                } else if self.has_queues(*number) {
                    Reply::PipeHasQueues
                } else {
                    Reply::Deleted
                }
            }
            Command::DeleteQueue(number) => {
                if self.has(Target::Queue(*number)) {
                    Reply::Deleted
                } else {
                    Reply::NoSuchQueue
                }
            }
        }
    }

    /// Puts an accepted pipe or queue command in force. Only one for a new target takes memory.
    pub fn put(&mut self, command: &Command) -> Result<(), AllocError>
        requires accepted { IsAnswered (settings_of self.old) command.now Reply.Configured }
        ensures puts { OnOk result (Puts command.now (Some command.now) (settings_of self.old) (settings_of self.new)) }
        ensures err { OnErr result (settings_of self.new ≡ settings_of self.old) }
        ensures only_new { OnErr result (settings_of self.old (subject command.now) ≡ None) }
    {
        // The prover asks that a body that moves a command names the types in it.
        let _limit: Option<Limit> = None;
        let _buckets: Option<Buckets> = None;
        let _mask: Option<Mask> = None;
        match subject(command) {
            Target::Pipe(number) => {
                self.counts.extend(number)?;
                self.pipes.put(number, command)?;
                Ok(())
            }
            Target::Queue(number) => {
                // The proof takes the bound of the number from this.
                let _number = number.get();
                let replaced = self.queues.put(number, command)?;
                self.counts.discount(named_pipe(replaced.as_ref()));
                self.counts.count(named_pipe(Some(command)));
                Ok(())
            }
        }
    }

    /// Takes out what an accepted delete is about.
    pub fn remove(&mut self, command: &Command)
        ensures { Puts command.now None (settings_of self.old) (settings_of self.new) }
    {
        match subject(command) {
            Target::Pipe(number) => {
                let _ = self.pipes.take(number);
            }
            Target::Queue(number) => {
                // The proof takes the bound of the number from this.
                let _number = number.get();
                let removed = self.queues.take(number);
                self.counts.discount(named_pipe(removed.as_ref()));
            }
        }
    }
}
