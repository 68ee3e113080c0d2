// The rows of the tasks that the sheet names.
ghost use Rattle.std.specs.Prelude.{◌≡◌, bytes_eq, position, vec_items};

use crate::noting::Loaded;

impl Loaded<'_> {
    // The first row whose task has this name.
    pub fn row_of(&self, name: &[u8]) -> Option<usize>
        ensures { result ≡ position (λ n. bytes_eq n.now name.now) (vec_items self.now.names) }
    {
        self.names.iter().position(|n| *n == name)
    }
}
