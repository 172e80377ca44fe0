//! The header of a PLY input: what it declares, or why it is refused. And the decimal numbers of the text.
#![tactic(auto)]

mod checks;
mod element;
mod fault;
mod form;
mod head;
mod line;
mod names;
mod number;
mod seen;
mod step;
mod text;
mod used;
mod words;

pub use element::{Element, Format, Kind, Property, Role, Used};
pub use fault::{HeadFault, NumberFault};
pub use head::{Head, HeadParts, read_head};
pub use number::{are_all_digits, digits_value, is_negative, read_number, without_sign};
