// The question sheet: bytes that hold a directory, a column and calls, as fields one after the other.
//
// - `Sheet` is a sheet that was read: its directory, its `Column`, and a reader that stands at its first call.
// - `Field` is one field of a sheet, and `Part` the bytes of its value with their place in the sheet.
// - `Reader` is an iterator over the fields; it is copied to read the calls again.
// - `SheetKey` is a kind of key that a sheet can hold, and `Request` is what a call of it asks.
//
// `Sheet::read` decides on the whole sheet before anything in it is tried, and allocates nothing. It promises the sheet
// that the grammar (specs/Grammar.antt) reads, and the relation above the grammar (specs/Written.antt): the fields,
// written one after the other, are the bytes, and no other fields are; where there is no sheet, no fields are.
// `Sheet::layout`, `Part::keys` and `Sheet::requests` give what the fields say, as specs/Said.antt defines it.
//
// It stands on the kinds of key (crate `keys`) and on `Side` and `Layout` (crate `indexes`).

#![tactic(auto)]

mod field;
mod key;
mod reader;
mod request;
mod sheet;
mod value;

pub use field::{Field, Kind, Part};
pub use key::SheetKey;
pub use reader::Reader;
pub use request::Request;
pub use sheet::{Column, MOST, Sheet};
