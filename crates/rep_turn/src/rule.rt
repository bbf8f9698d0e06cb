//! The rule of the table, and the kinds of step.
use crate::held::Held;
use crate::view::View;
use atomic_table::{Join, Play, Split, TableRule};
use std::marker::PhantomData;
use std::snapshot::Snapshot;

/// What the table is told when it is made: the state to guard, and the number of participants.
pub type Key<B> = (Snapshot<B>, u32);

/// The rule.
pub struct Order<B> {
    state: PhantomData<B>,
}

impl<B: Held> TableRule<Option<B>, View<B::Entry>, Key<B>> for Order<B> {
    ghost use Rattle.rep_turn.specs.Rule.{IsOrderly};
    ghost use Rattle.rep_turn.specs.Views.{first_view};

    ghost holds = { λ key. IsOrderly B.meaning key.0.value key.1 };

    ghost first = { λ key. first_view (B.meaning key.0.value) key.1 };
}

/// The state is taken, or a try misses.
pub(crate) struct Take;

impl<B: Held> Play<Option<B>, View<B::Entry>> for Take {
    ghost use Rattle.rep_turn.specs.Plays.{took};

    ghost then = { took B.meaning };
}

/// What the state shows is made visible to all.
pub(crate) struct Publish;

impl<B: Held> Play<Option<B>, View<B::Entry>> for Publish {
    ghost use Rattle.rep_turn.specs.Plays.{published};

    ghost then = { published B.meaning };
}

/// The state is given back.
pub(crate) struct Give;

impl<S, E> Play<S, View<E>> for Give {
    ghost use Rattle.rep_turn.specs.Plays.{gave};

    ghost then = { gave };
}

/// A thread begins or ends to wait.
pub(crate) struct Pause;

impl<S, E> Play<S, View<E>> for Pause {
    ghost use Rattle.rep_turn.specs.Plays.{passed};

    ghost then = { passed };
}

/// The visible count is looked at.
pub(crate) struct Look;

impl<S, E> Play<S, View<E>> for Look {
    ghost use Rattle.rep_turn.specs.Plays.{looked};

    ghost then = { looked };
}

/// A number is drawn, or a try misses.
pub(crate) struct Draw;

impl<S, E> Play<S, View<E>> for Draw {
    ghost use Rattle.rep_turn.specs.Plays.{drew};

    ghost then = { drew };
}

/// A new seat comes, which has seen what the first one had.
pub(crate) struct Sit;

impl<S, E> Play<S, View<E>> for Sit {
    ghost use Rattle.rep_turn.specs.Plays.{sat};

    ghost then = { sat };
}

/// A view is split: the first keeps what it has seen, and the second has the numbers too.
pub(crate) struct Detach;

impl<E> Split<View<E>> for Detach {
    ghost use Rattle.rep_turn.specs.Views.{unnumbered};

    ghost left = { unnumbered };

    ghost right = { λ v. v };
}

/// A view is joined into another, which is told all that it knew.
pub(crate) struct Gather;

impl<E> Join<View<E>> for Gather {
    ghost use Rattle.rep_turn.specs.Views.{joining, spent_view};

    ghost both = { joining };

    ghost spent = { spent_view };
}
