//! When conditions meet constraints, of `wm_conditions`.

use crate::told::Told;
use case_files::fields::{RowFault, flag, has_only, unless_refused};
use case_files::names::{network_name, network_named};
use serde_json::Value;
use std::alloc::{AllocError, Global};
use wm_conditions::{Conditions, Constraints, Network, met};

/// The network that a value names, none that is required where it has none.
fn network(row: &Value) -> Result<Network, RowFault> {
    let Some(value) = row.get("network") else {
        return Ok(Network::NotRequired);
    };
    match value.as_str() {
        Some(name) => network_named(name).ok_or(RowFault::Value),
        None => Err(RowFault::Value),
    }
}

/// The keys of constraints.
pub const CONSTRAINTS: [&str; 5] = [
    "network",
    "charging",
    "idle",
    "battery_not_low",
    "storage_not_low",
];

/// The constraints whose fields stand in a value; one that doesn't isn't set.
pub fn constraints(value: &Value) -> Result<Constraints, RowFault> {
    Ok(Constraints {
        network: network(value)?,
        charging: flag(value, "charging")?,
        idle: flag(value, "idle")?,
        battery_not_low: flag(value, "battery_not_low")?,
        storage_not_low: flag(value, "storage_not_low")?,
    })
}

/// The conditions that a number from 0 to 127 stands for, a bit each.
fn conditions(number: u8) -> Conditions {
    Conditions {
        connected: number & 64 != 0,
        metered: number & 32 != 0,
        roaming: number & 16 != 0,
        charging: number & 8 != 0,
        idle: number & 4 != 0,
        battery_low: number & 2 != 0,
        storage_low: number & 1 != 0,
    }
}

/// What conditions have in common: how many they are, and the numbers of what holds in all of them,
/// and of what holds in any.
#[derive(Clone, Copy)]
struct Common {
    count: u32,
    all: u8,
    any: u8,
}

/// What those of all 128 conditions have in common that meet the constraints.
fn common_of(constraints: &Constraints) -> Common {
    let mut common = Common {
        count: 0,
        all: 127,
        any: 0,
    };
    for number in 0..128 {
        if met(constraints, &conditions(number)) {
            common = Common {
                count: common.count.saturating_add(1),
                all: common.all & number,
                any: common.any | number,
            };
        }
    }
    common
}

/// What all conditions that meet constraints have in common, and how many these are. That tells
/// which they are, where they are as many as what is in common leaves open.
pub fn needed(alloc: Global, row: &Value) -> Result<Value, RowFault> {
    has_only(row, &CONSTRAINTS)?;
    let common = common_of(&constraints(row)?);
    let mut told = Told::new(alloc);
    told.number("count", u64::from(common.count));
    put_common(&mut told, &conditions(common.all), &conditions(common.any));
    unless_refused(told.into_value())
}

/// Puts what holds in all conditions, and what in none, given what holds in all and in any.
fn put_common(told: &mut Told, all: &Conditions, any: &Conditions) {
    put_flag(told, "connected", all.connected, any.connected);
    put_flag(told, "metered", all.metered, any.metered);
    put_flag(told, "roaming", all.roaming, any.roaming);
    put_flag(told, "charging", all.charging, any.charging);
    put_flag(told, "idle", all.idle, any.idle);
    put_flag(told, "battery_low", all.battery_low, any.battery_low);
    put_flag(told, "storage_low", all.storage_low, any.storage_low);
}

/// Puts a condition that holds in all, or in none.
fn put_flag(told: &mut Told, name: &str, all: bool, any: bool) {
    if all {
        told.flag(name, true);
    }
    if !any {
        told.flag(name, false);
    }
}

/// Whether the conditions at opening meet constraints.
pub fn met_at_opening(row: &Value) -> Result<Value, RowFault> {
    has_only(row, &CONSTRAINTS)?;
    let constraints = constraints(row)?;
    Ok(Value::from(met(&constraints, &Conditions::OPENING)))
}

/// The conditions at opening.
pub fn opening(alloc: Global, row: &Value) -> Result<Value, RowFault> {
    has_only(row, &[])?;
    let mut told = Told::new(alloc);
    put_common(&mut told, &Conditions::OPENING, &Conditions::OPENING);
    unless_refused(told.into_value())
}

/// The constraints of a request that names none.
pub fn no_constraints(alloc: Global, row: &Value) -> Result<Value, RowFault> {
    has_only(row, &[])?;
    unless_refused(constraints_told(alloc, &Constraints::NONE))
}

/// All fields of constraints.
pub fn constraints_told(alloc: Global, constraints: &Constraints) -> Result<Value, AllocError> {
    let mut told = Told::new(alloc);
    told.text("network", network_name(constraints.network));
    told.flag("charging", constraints.charging);
    told.flag("idle", constraints.idle);
    told.flag("battery_not_low", constraints.battery_not_low);
    told.flag("storage_not_low", constraints.storage_not_low);
    told.into_value()
}
