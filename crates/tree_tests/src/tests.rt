//! Maps at concrete types.
mod calls;
mod changing;
mod every_type;
mod growing;
mod joining;
mod markers;
mod probe;
mod refusing;
mod small;
mod watching;
