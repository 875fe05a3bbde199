//! Programs that are judged event by event.

mod errors;
mod runs;
mod support;
