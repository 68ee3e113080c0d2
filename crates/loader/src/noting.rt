// What a sheet says beside its rows: the make of its banks' arbiters, and the names of its tasks.
mod notes;
mod rows;

use sheet::lines::Make;

// The names stay part of the sheet, one for each task, in the order of their rows. They stand beside the plan, whose rules know no names.
#[derive(Drop)]
pub struct Loaded<'a> {
    pub make: Option<Make>,
    pub names: Vec<&'a [u8]>,
}
