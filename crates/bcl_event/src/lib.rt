//! Events of the containers, and the sequential objects that their histories are read by.
//!
//! Its one contract for the layers above: an event is a call of a rank and what it was answered; a history, a list of
//! events, is legal where each answer is that of the sequential object in the state that the events before it leave. The
//! object of each container is defined in `specs/`, over the words of keys, values and items, and is a value here that
//! one caller can step.
//!
//! - `event`: a call of a rank, and its reply.
//! - `map`, `queue`, `array`, `filter`: the calls and the replies of each container.
//! - `seq_map`, `seq_queue`, `seq_array`, `seq_filter`: the objects, which answer as their definitions.
//! - `marks`: the bits that a hash marks in a block of a filter.
//! - `laws`: what follows from the definitions.
//! - `numbers`: the number that a value is, for the calls that count.
#![tactic(auto)]

mod array;
mod event;
mod filter;
mod laws;
mod map;
mod marks;
mod numbers;
mod queue;
mod seq_array;
mod seq_filter;
mod seq_map;
mod seq_queue;
#[cfg(test)]
mod tests;

pub use array::{ArrayCall, ArrayReply};
pub use event::Event;
pub use filter::{FilterCall, FilterReply};
pub use laws::{
    calls_are_those_of_the_ranks, inserted_keys_are_present, items_are_taken_in_order,
    maps_with_room_are_never_full, merges_leave_folds, numbers_make_numbers, numbers_name_promises,
    stored_values_are_found,
};
pub use map::{MapCall, MapReply};
pub use marks::{are_set, bits_of, with_bits};
pub use queue::{QueueCall, QueueReply};
pub use seq_array::SeqArray;
pub use seq_filter::SeqFilter;
pub use seq_map::SeqMap;
pub use seq_queue::SeqQueue;
