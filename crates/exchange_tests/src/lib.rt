//! Tests of the operators' codes and of the exchange, as their callers see them.
#![tactic(auto)]

#[cfg(test)]
mod both_forms;
#[cfg(test)]
mod full_fields;
#[cfg(test)]
mod joined_takes;
#[cfg(test)]
mod limits;
#[cfg(test)]
mod logs;
#[cfg(test)]
mod offers;
#[cfg(test)]
mod operator_codes;
#[cfg(test)]
mod refused_exchanges;
#[cfg(test)]
mod tickets;
#[cfg(test)]
mod turns;
