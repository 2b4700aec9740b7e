//! The floors that are put before the workers of a node begin.
ghost use Rattle.std.specs.Prelude.{◌≡◌, ◌++◌, IfOk, IsTrue};
ghost use Rattle.std.specs.Option.{option_to_list};
ghost use Rattle.node_intake.specs.Floors as spec;

use bnc_sockets::now_ms;
use byte_text::NoMemory;
use chat_change::{Account, Change, Moment};
use node_config::AccountConfig;
use node_events::{Event, ServeFault};
use operator_log::Log;
use shared_node::{Ends, Naming, Pass, SharedNode};
use std::alloc::Global;
use std::sync::Wait;
use std::time::Clock;

// The floor of an account. The maker refuses nothing here, since the name is that of an account: it can only want memory.
fn floor_of(alloc: Global, account: &AccountConfig, at: Moment) -> Result<Change, NoMemory>
    ensures { IfOk result (λ floor. floor ≡ Change.AccountFloor account.now.name at) }
{
    match Account::new(alloc, account.name.as_bytes()) {
        Ok(account) => Ok(Change::AccountFloor { account, at }),
        Err(_) => Err(NoMemory),
    }
}

// Whether there was memory for the floor of an account, if it has one.
fn push_floor(alloc: Global, floors: &mut Vec<Change>, account: &AccountConfig) -> bool
    ensures { IsTrue result →
        floors.new.items ≡ floors.old.items ++ option_to_list (spec.floor_of account.now) }
{
    let Some(at) = &account.keep_from else {
        return true;
    };
    match floor_of(alloc, account, *at) {
        Ok(floor) => floors.push(floor).is_ok(),
        Err(_) => false,
    }
}

/// A floor for each account that keeps nothing before a moment, in their order.
pub(crate) fn floors_of(alloc: Global, accounts: &[AccountConfig]) -> Result<Vec<Change>, NoMemory>
    ensures { IfOk result (λ floors. floors.items ≡ spec.floors_of accounts.now) }
{
    let mut floors = Vec::new(alloc);
    for account in accounts {
        if !push_floor(alloc, &mut floors, account) {
            return Err(NoMemory);
        }
    }
    Ok(floors)
}

/// Puts floors of accounts through a pass, and tells the operator of each.
pub(crate) fn put_floors<J: Naming, R: Ends, W: Wait + Clock>(
    rt: &W,
    log: &Log,
    node: &SharedNode<J, R>,
    pass: &mut Pass<J>,
    floors: &[Change],
) -> Result<(), ServeFault> {
    if floors.is_empty() {
        return Ok(());
    }
    // a node that begins has numbers left, so it can only want memory
    if node.put(rt, pass, floors).is_err() {
        return Err(ServeFault::NoMemory);
    }
    let now = now_ms(rt).unwrap_or(0);
    for floor in floors {
        if let Change::AccountFloor { account, at } = floor {
            let event = Event::FloorPut {
                account: account.name(),
                at: *at,
                is_ahead: now < at.ms(),
            };
            log.report(rt, &event);
        }
    }
    Ok(())
}
