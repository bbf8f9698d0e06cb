//! A participant's token.
ghost use Rattle.std.specs.Prelude.{◌≡◌};

use crate::view::View;
use atomic_table::Badge;

/// A participant's token. Contracts see its number, what it has seen of the guarded state, and the
/// greatest visible count that it looked at.
pub struct Pass<E> {
    pub(crate) number: u32,
    pub(crate) badge: Badge<View<E>>,
}

impl<E> Pass<E> {
    ghost use Rattle.rep_turn.specs.Tokens.{number_of};

    /// Its number, which stays.
    pub fn number(&self) -> u32
        ensures { result ≡ number_of self.now }
    {
        self.number
    }
}

impl<E> Drop for Pass<E> {
    fn drop(self) {
        let Self {
            number: _,
            badge: _,
        } = self;
    }
}
