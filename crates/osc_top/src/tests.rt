//! Worked runs by the words of the command, with the source and the sinks in memory.

mod atomics;
mod code;
mod faults;
mod files;
mod generated;
mod heaps;
mod objects;
mod outside;
mod processes;
mod runs;
mod support;
mod texts;
mod words;
