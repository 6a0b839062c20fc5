// What tests play on a driver over an object, with a sleeper of its own.
ghost use Rattle.std.specs.Prelude.{◌≡◌};

use crate::tests::bench::{Bench, Opens};
use crate::tests::dials::dials_and_accepts;
use crate::tests::echo::echo;
use crate::tests::files::crowds;
use crate::tests::full::full;
use crate::tests::many::many;
use crate::tests::stage::{Stage, Why};
use ready_driver::Sockets;
use std::alloc::Global;
use std::marker::Brand;
use std::sync::Wait;
use std::sync::ledger::{Blank, Ledger};
use std::time::Clock;
use wake_core::{PUSH_PARTS, Sleeper, WakeCell};

/// What is played.
#[derive(Clone, Copy)]
pub(crate) enum Scene {
    /// Bytes are sent to and fro.
    Echo,
    /// A peer never reads.
    Full,
    /// The driver listens, dials and accepts.
    Dials,
    /// So many connections are open at once.
    Many(u64),
    /// The process may open no further file.
    Crowd,
}

// Plays a scene.
fn play<S: Stage>(stage: &mut S, alloc: Global, scene: Scene) -> Result<(), Why> {
    match scene {
        Scene::Echo => echo(stage, alloc),
        Scene::Full => full(stage, alloc),
        Scene::Dials => dials_and_accepts(stage, alloc),
        Scene::Many(count) => many(stage, alloc, count),
        Scene::Crowd => crowds(stage),
    }
}

// Plays a scene on a new driver, whose parks are lent this sleeper.
fn play_over<I: Sockets + Opens, P: Ledger, D: Ledger, T: Wait + Clock>(
    rt: &T,
    alloc: Global,
    io: I,
    sleeper: &mut Sleeper<P, D>,
    scene: Scene,
) -> Result<(), Why> {
    let mut bench = Bench::new(alloc, io, sleeper, rt);
    play(&mut bench, alloc, scene)
}

// The same with a new sleeper.
fn play_new<P: Ledger, D: Ledger, I: Sockets + Opens, T: Wait + Clock>(
    rt: &T,
    alloc: Global,
    io: I,
    pushes: Blank,
    drains: Blank,
    scene: Scene,
) -> Result<(), Why>
    requires pushes { (pushes.name ≡ P.name) × (pushes.parts ≡ P.parts) × (pushes.parts ≡ PUSH_PARTS) }
    requires drains { (drains.name ≡ D.name) × (drains.parts ≡ D.parts) × (drains.parts ≡ 1) }
{
    match WakeCell::<P, D>::new(alloc, pushes, drains) {
        Ok((_cell, mut sleeper)) => play_over(rt, alloc, io, &mut sleeper, scene),
        Err(_) => Err(Why::OutOfMemory),
    }
}

/// Plays a scene on a new driver over an object, with a new sleeper.
pub(crate) fn play_on<I: Sockets + Opens, T: Wait + Clock>(
    rt: &T,
    alloc: Global,
    io: I,
    scene: Scene,
) -> Result<(), Why> {
    let pushes = Blank::new(PUSH_PARTS);
    let drains = Blank::new(1);
    play_new::<Brand, Brand, I, T>(rt, alloc, io, pushes, drains, scene)
}
