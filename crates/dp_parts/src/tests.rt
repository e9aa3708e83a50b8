//! What no text reaches: the parts of a pipeline by hand, and between threads of their own.
mod graph;
mod lane;
mod memory;
mod outside;
mod relay;
mod ring;
mod stop;
