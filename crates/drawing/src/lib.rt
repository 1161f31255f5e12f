//! Recordings and their orders, overlooks and cycles as pictures.
#![tactic(auto)]

mod bold;
mod drawing;
mod drawn;
mod edge_lines;
mod edges;
mod gaps;
mod nodes;
mod ranks;

pub use drawing::drawing_text;
