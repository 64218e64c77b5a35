//! The kinds of step at the table of a desk: what each makes of the views, and tells.
ghost use Rattle.std.specs.Prelude.{ℕ};
ghost use Rattle.wm_callers.specs.Rule.{fresh, no_signed, note_of, pass_view, with_kept, with_longer, with_signed, Adds, Compares};
ghost use Rattle.wm_callers.specs.declared.entry.Signed.{Signed};
ghost use Rattle.wm_callers.specs.declared.view.View.TheVariants.{Spent};

use crate::view::View;
use atomic_table::{Join, Play, Split};
use std::marker::{Brand, PhantomData};

/// The entry that a call adds, for contracts alone. A call at [`Brand`] picks it.
pub(crate) trait Given {
    ghost entry: { Signed };
}

impl Given for Brand {
    ghost entry = { no_signed };
}

/// The number of a caller, in the same way.
pub(crate) trait Numbered {
    ghost number: { ℕ };
}

impl Numbered for Brand {
    ghost number = { 0 };
}

/// A new pass.
pub(crate) struct NewPass<N> {
    of: PhantomData<N>,
}

impl<N: Numbered> Split<View> for NewPass<N> {
    ghost left = { λ view. view };

    ghost right = { λ _. pass_view (fresh N.number) };
}

/// A note of what a seat has seen.
pub(crate) struct Note;

impl Split<View> for Note {
    ghost left = { λ view. view };

    ghost right = { note_of };
}

/// The desk keeps what a note or a pass knows.
pub(crate) struct Keep;

impl Join<View> for Keep {
    ghost both = { with_kept };

    ghost spent = { Spent };
}

/// A pass takes the longer of two lists, and keeps both.
pub(crate) struct Lengthen;

impl Join<View> for Lengthen {
    ghost both = { with_longer };

    ghost spent = { Spent };
}

/// A pass takes a list that ends with its own entry.
pub(crate) struct Signing;

impl Join<View> for Signing {
    ghost both = { with_signed };

    ghost spent = { Spent };
}

/// What a seat keeps is compared with what it has.
pub(crate) struct Compare;

impl Play<(), View> for Compare {
    ghost then = { Compares };
}

/// An entry is added.
pub(crate) struct Add<G> {
    of: PhantomData<G>,
}

impl<G: Given> Play<(), View> for Add<G> {
    ghost then = { Adds G.entry };
}
