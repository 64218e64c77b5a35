//! The mark: which desk it is, as a type.
use std::marker::{Brand, PhantomData};
use std::sync::ledger::Ledger;

/// Which desk it is, for contracts alone. A [`Desk`](crate::Desk) and its passes have such a
/// parameter, so that their types keep that they belong together. Whoever opens a desk picks it at
/// the call of a function that is generic over the mark, with [`Brand`] as its argument.
pub trait DeskMark {
    ghost use Rattle.wm_callers.specs.Inputs.{DeskInputs};

    /// Which desk it is.
    ghost desk: { DeskInputs };
}

impl DeskMark for Brand {
    ghost use Rattle.wm_callers.specs.Inputs.{no_desk};

    ghost desk = { no_desk };
}

/// The ledger of the calls of a desk.
pub struct CallsOf<J> {
    of: PhantomData<J>,
}

impl<J: DeskMark> Ledger for CallsOf<J> {
    ghost name = { J.desk.calls };

    ghost parts = { J.desk.callers };
}

/// The ledger of the faults of the keeper that callers of a desk met.
pub struct FaultsOf<J> {
    of: PhantomData<J>,
}

impl<J: DeskMark> Ledger for FaultsOf<J> {
    ghost name = { J.desk.refusals };

    ghost parts = { J.desk.callers };
}
