// What the calls of the readiness driver do where memory is at hand, and what its objects do: handles in memory, and sockets of this
// machine. Each test of sockets takes the first port that is free from one of its own on.
mod bench;
mod bits;
mod dials;
mod echo;
mod files;
mod full;
mod many;
mod memory;
mod named;
mod objects;
mod scene;
mod sockets;
mod stage;
mod steps;
mod waits;
mod wakes;
