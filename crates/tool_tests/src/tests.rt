//! One module for each thing that is tested, and `lab` for what several of them use.
mod counting_sink;
mod each_tool;
mod lab;
mod notes;
mod refused_memory;
mod waiting_sources;
