// What streams, streams over streams and copies do where memory is at hand, and after faults, pauses and interrupts.
mod base;
mod buffers;
mod chain;
mod copies;
mod ends;
mod files;
mod fixed;
mod halves;
mod lines;
mod noting;
mod numbers;
mod runs;
mod scripted;
mod stage;
mod steps;
mod writes;
