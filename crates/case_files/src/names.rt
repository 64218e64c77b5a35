//! The names that rows have for the values of enums, which are those of scripts and replies.

use wm_conditions::{Conditions, Network};
use wm_data::Merger;
use wm_schedule::BackoffPolicy;
use wm_worker::Kind;

pub fn backoff_policy_named(name: &str) -> Option<BackoffPolicy> {
    match name {
        "LINEAR" => Some(BackoffPolicy::Linear),
        "EXPONENTIAL" => Some(BackoffPolicy::Exponential),
        _ => None,
    }
}

pub fn backoff_policy_name(policy: BackoffPolicy) -> &'static str {
    match policy {
        BackoffPolicy::Linear => "LINEAR",
        BackoffPolicy::Exponential => "EXPONENTIAL",
    }
}

pub fn merger_named(name: &str) -> Option<Merger> {
    match name {
        "OVERWRITING" => Some(Merger::Overwriting),
        "ARRAY" => Some(Merger::ArrayCreating),
        _ => None,
    }
}

pub fn merger_name(merger: Merger) -> &'static str {
    match merger {
        Merger::Overwriting => "OVERWRITING",
        Merger::ArrayCreating => "ARRAY",
    }
}

pub fn network_named(name: &str) -> Option<Network> {
    match name {
        "NOT_REQUIRED" => Some(Network::NotRequired),
        "CONNECTED" => Some(Network::Connected),
        "UNMETERED" => Some(Network::Unmetered),
        "NOT_ROAMING" => Some(Network::NotRoaming),
        "METERED" => Some(Network::Metered),
        _ => None,
    }
}

pub fn network_name(network: Network) -> &'static str {
    match network {
        Network::NotRequired => "NOT_REQUIRED",
        Network::Connected => "CONNECTED",
        Network::Unmetered => "UNMETERED",
        Network::NotRoaming => "NOT_ROAMING",
        Network::Metered => "METERED",
    }
}

/// The conditions by their names.
pub fn flags(conditions: &Conditions) -> [(&'static str, bool); 7] {
    [
        ("connected", conditions.connected),
        ("metered", conditions.metered),
        ("roaming", conditions.roaming),
        ("charging", conditions.charging),
        ("idle", conditions.idle),
        ("battery_low", conditions.battery_low),
        ("storage_low", conditions.storage_low),
    ]
}

pub fn kind_named(name: &str) -> Option<Kind> {
    match name {
        "Echo" => Some(Kind::Echo),
        "Sum" => Some(Kind::Sum),
        "FailUntil" => Some(Kind::FailUntil),
        "RetryUntil" => Some(Kind::RetryUntil),
        "Count" => Some(Kind::Count),
        "Wait" => Some(Kind::Wait),
        _ => None,
    }
}
