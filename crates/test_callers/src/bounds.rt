//! What the types of the library are to a thread and to a bound: a type that is no longer `Send`, `Sync`, `Debug` or ordered is refused here.
mod bytes;
mod examples;
mod maps;
mod rest;
mod sets;
mod traits;
