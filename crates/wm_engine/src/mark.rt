//! The mark: what one run was given, as a type.
use std::marker::Brand;

/// What one run was given, for contracts alone. An [`Engine`](crate::Engine), its tickets and what
/// holds them have such a parameter, so that their types keep what their run was given: the rows
/// of its store and what the keeper showed then, the instances, the lines, and what the sink told.
/// Whoever begins a run picks these at the call of a function that is generic over the mark, with
/// [`Brand`] as its argument.
pub trait Mark {
    ghost use Rattle.wm_engine.specs.Inputs.{Inputs};

    /// What the run was given.
    ghost inputs: { Inputs };
}

impl Mark for Brand {
    ghost use Rattle.wm_engine.specs.Inputs.{no_inputs};

    ghost inputs = { no_inputs };
}
