//! A child put at the end.
ghost use Rattle.std.specs.Prelude.{◌≡◌, ◌<◌, [], ◌∷◌, ◌++◌, length};
ghost use Rattle.fc_base.specs.Sizes.{most_children};

use super::Children;
use fc_base::{Count, Handle};

impl<T, A: Handle> Children<T, A> {
    /// Puts `item` after those that are there.
    pub fn push(&mut self, item: T)
        requires { length self.old < most_children }
        ensures { self.new ≡ self.old ++ item ∷ [] }
    {
        self.slots.push(item, &mut Count::new());
    }
}
