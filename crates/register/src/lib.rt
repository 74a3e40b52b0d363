// The calls of a sheet, the refusals of the sheet layer, and (in specs/) the register that a sheet is measured by.
#![tactic(auto)]

mod areas;
mod call;
mod fault;

pub use areas::Areas;
pub use call::Call;
pub use fault::SheetFault;
