// The listing that answers a sheet.
ghost use Rattle.std.specs.Prelude.{◌≡◌, ◌≤◌, length, IfOk};
ghost use Rattle.loader.specs.Faults.{number_of};
ghost use Rattle.listing.specs.Listing.{fault as fault_text};
ghost use Rattle.answering.specs.Listings.{Answers};

use crate::memory::OutOfMemory;
use crate::named::Named;
use crate::writing::write_fault;
use loader::faults::{LoadCause, LoadFault};
use loader::loading::load;
use plan::open::OpenPlan;
use plan::rows::Refusal;
use sheet::{LIMIT, TOO_LONG};
use std::alloc::Global;

// A sheet that cannot be loaded for want of memory has no listing.
fn list_fault(heap: Global, fault: &LoadFault) -> Result<Vec<u8>, OutOfMemory>
    ensures { IfOk result (λ text. (1 ≤ number_of fault.now.cause) × (text.items ≡ fault_text (number_of fault.now.cause) fault.now.line fault.now.column)) }
{
    match fault.cause {
        LoadCause::Row(Refusal::Memory) => Err(OutOfMemory),
        _ => write_fault(heap, fault.number(), fault.line, fault.column),
    }
}

// The answer to a sheet that is not too long.
fn list_lines(heap: Global, sheet: &[u8]) -> Result<Vec<u8>, OutOfMemory>
    requires { length sheet.now ≤ 65536 }
    ensures { IfOk result (λ text. Answers sheet.now text.items) }
{
    let mut plan = OpenPlan::new(heap);
    match load(heap, &mut plan, sheet) {
        Ok(loaded) => {
            let named = Named {
                heap,
                plan: &plan.close(),
                names: loaded.names.as_slice(),
            };
            named.list(loaded.make)
        }
        Err(fault) => list_fault(heap, &fault),
    }
}

// The listing that answers a sheet. A sheet has at most LIMIT bytes, which is asked before any line is read.
pub fn answer_sheet(heap: Global, sheet: &[u8]) -> Result<Vec<u8>, OutOfMemory>
    ensures { IfOk result (λ text. Answers sheet.now text.items) }
{
    if sheet.len() > LIMIT {
        return write_fault(heap, TOO_LONG, 0, 0);
    }
    list_lines(heap, sheet)
}
