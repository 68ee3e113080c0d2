// Notes what the lines of a sheet say beside their rows.
ghost use Rattle.std.specs.Prelude.{◌≡◌, [], MatchResult};
ghost use Rattle.plan.specs.declared.rows.Refusal.TheVariants.{Memory};
ghost use Rattle.sheet.specs.Rows.{row_of};
ghost use Rattle.loader.specs.Loading.{Noted, Notes};
ghost use Rattle.loader.specs.Rows.{Grows};

use crate::noting::Loaded;
use plan::rows::Refusal;
use sheet::lines::Line;
use std::alloc::Global;

impl<'a> Loaded<'a> {
    pub(crate) fn new(heap: Global) -> Loaded<'a>
        ensures { Noted result [] }
    {
        Loaded {
            make: None,
            names: Vec::new(heap),
        }
    }

    pub(crate) fn note(&mut self, line: Line<'a>) -> Result<(), Refusal>
        ensures { MatchResult result (λ _. Notes self.old (row_of line.entry) self.new) (λ e. (e ≡ Memory) × Grows (row_of line.entry)) }
    {
        match line {
            Line::Head { make, .. } => self.make = Some(make),
            Line::Task { name, .. } => self.names.push(name)?,
            Line::Demand { .. } | Line::Dependency { .. } => {}
        }
        Ok(())
    }
}
