//! What constraints and conditions are made of.

/// The network that a work needs, after `androidx.work.NetworkType`.
#[derive(Clone, Copy, Debug, PartialEq, Eq)]
pub enum Network {
    NotRequired,
    Connected,
    Unmetered,
    NotRoaming,
    Metered,
}

/// What has to hold for a work to run, after `androidx.work.Constraints`.
#[derive(Clone, Copy, Debug, PartialEq, Eq)]
pub struct Constraints {
    pub network: Network,
    pub charging: bool,
    pub idle: bool,
    pub battery_not_low: bool,
    pub storage_not_low: bool,
}

impl Constraints {
    /// No constraint, which is the default.
    pub const NONE: Constraints = Constraints {
        network: Network::NotRequired,
        charging: false,
        idle: false,
        battery_not_low: false,
        storage_not_low: false,
    };
}

/// The conditions that the device is in.
#[derive(Clone, Copy, Debug, PartialEq, Eq)]
pub struct Conditions {
    pub connected: bool,
    pub metered: bool,
    pub roaming: bool,
    pub charging: bool,
    pub idle: bool,
    pub battery_low: bool,
    pub storage_low: bool,
}

impl Conditions {
    /// The conditions at opening: none of them holds.
    pub const OPENING: Conditions = Conditions {
        connected: false,
        metered: false,
        roaming: false,
        charging: false,
        idle: false,
        battery_low: false,
        storage_low: false,
    };
}
