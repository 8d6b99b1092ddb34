//! Reads declarations ([dcl.dcl], [class.mem], [temp]) and units ([basic.link]): a function for each production, which
//! reads exactly what the production has.
#![tactic(auto)]

mod constants;
mod functions;
mod names;
mod parameters;
mod specifiers;
mod structs;
mod template_parameters;
mod templates;
mod units;

pub use units::unit;
