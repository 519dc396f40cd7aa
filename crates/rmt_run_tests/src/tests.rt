//! Rows of the commands that run packets, and of those that tell of a run.

mod changes;
mod committed;
mod example_texts;
mod examples;
mod hostile;
mod probed;
mod runs;
mod samples;
mod simulated;
mod switched;
