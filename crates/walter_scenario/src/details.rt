//! More of what is wrong with a step, for a reader. No clause speaks of it.

use crate::place::{Detail, Place};
use crate::scenario::LAST_ARMED;
use crate::step_fault::{StepFault, StepForm};
use crate::values::{items_of, site_of, string_of, whole_of};
use serde_json::Value;

/// The form of the steps of this word.
fn form_of(word: &str) -> Option<StepForm> {
    match word {
        "call" => Some(StepForm::Call),
        "deliver" => Some(StepForm::Deliver),
        "advance" => Some(StepForm::Advance),
        "tick" => Some(StepForm::Tick),
        "upgrade" => Some(StepForm::Upgrade),
        "stop" => Some(StepForm::Stop),
        "restart" => Some(StepForm::Restart),
        "pump" => Some(StepForm::Pump),
        "arm" => Some(StepForm::Arm),
        _ => None,
    }
}

/// Whether the value is a whole number from the least to the most.
fn is_within(value: &Value, least: u64, most: u64) -> bool {
    whole_of(value).is_some_and(|number| least <= number && number <= most)
}

fn check_client(clients: usize, client: &Value) -> Result<(), StepFault> {
    match whole_of(client) {
        Some(client) if client < clients as u64 => Ok(()),
        _ => Err(StepFault::Client { clients }),
    }
}

fn check_site(sites: u8, site: &Value) -> Result<(), StepFault> {
    match site_of(sites, site) {
        Some(_) => Ok(()),
        None => Err(StepFault::Site { sites }),
    }
}

fn check_peers(sites: u8, site: &Value, from: &Value) -> Result<(), StepFault> {
    let site = site_of(sites, site).ok_or(StepFault::Site { sites })?;
    let from = site_of(sites, from).ok_or(StepFault::From { sites })?;
    if site == from {
        return Err(StepFault::Same);
    }
    Ok(())
}

fn check_delivery(sites: u8, site: &Value, from: &Value, number: &Value) -> Result<(), StepFault> {
    check_peers(sites, site, from)?;
    if !is_within(number, 1, u64::from(u32::MAX)) {
        return Err(StepFault::Number);
    }
    Ok(())
}

fn check_arm(sites: u8, site: &Value, nth: &Value, choice: &Value) -> Result<(), StepFault> {
    check_site(sites, site)?;
    if !is_within(nth, 1, LAST_ARMED) {
        return Err(StepFault::Nth);
    }
    if !is_within(choice, 0, u64::MAX) {
        return Err(StepFault::Choice);
    }
    Ok(())
}

/// Whether the values behind the word of a step are those of its form.
fn check_values(
    sites: u8,
    clients: usize,
    form: StepForm,
    values: &[Value],
) -> Result<(), StepFault> {
    match (form, values) {
        (StepForm::Call, [client]) => check_client(clients, client),
        (StepForm::Deliver, [site, from, number]) => check_delivery(sites, site, from, number),
        (StepForm::Advance, [site, from]) => check_peers(sites, site, from),
        (
            StepForm::Tick
            | StepForm::Upgrade
            | StepForm::Stop
            | StepForm::Restart
            | StepForm::Pump,
            [site],
        ) => check_site(sites, site),
        (StepForm::Arm, [site, nth, choice]) => check_arm(sites, site, nth, choice),
        _ => Err(StepFault::Length { form }),
    }
}

/// Whether the value is a step over so many sites and clients.
fn check_step(sites: u8, clients: usize, step: &Value) -> Result<(), StepFault> {
    let values = items_of(step).ok_or(StepFault::NoList)?;
    let [word, values @ ..] = values else {
        return Err(StepFault::Word);
    };
    let form = string_of(word).and_then(form_of).ok_or(StepFault::Word)?;
    check_values(sites, clients, form, values)
}

/// Whether the step of this number, counted from 0, is one.
fn check_at(sites: u8, clients: usize, steps: &Value, index: usize) -> Result<(), StepFault> {
    match items_of(steps).ok_or(StepFault::NoSteps)?.get(index) {
        Some(step) => check_step(sites, clients, step),
        None => Ok(()),
    }
}

/// What is wrong with the step at the place, over so many sites and clients.
pub fn step_detail(sites: u8, clients: usize, steps: &Value, place: Place) -> Detail {
    let Place::Steps(index) = place else {
        return Detail::None;
    };
    match check_at(sites, clients, steps, index) {
        Ok(()) => Detail::None,
        Err(fault) => Detail::Step { index, fault },
    }
}
