// What requests, entries, rings in memory and their handles do where memory is at hand.
mod bench;
mod cancels;
mod entry;
mod executes;
mod faults;
mod links;
mod members;
mod moves;
mod order;
mod request;
mod room;
mod runs;
mod stage;
mod steps;
