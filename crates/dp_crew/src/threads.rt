//! The threads of a region. Each polls the units that are handed to it, one after the other, until the region is over.
use crate::trays::{Tray, lay};
use dp_edge::Gate;
use dp_pipeline::Unit;
use dp_relay::Polled;
use dp_waiting::{Bell, Pause};
use std::sync::Wait;
use std::thread::Scope;
use std::time::Clock;

/// Starts the thread of the tray at this place, which waits by the bell there, and says whether it could be started.
pub(crate) fn start<'s, 'u, E, R: Wait + Clock + Sync, G: Gate>(
    scope: &Scope<'s, E>,
    rt: &'s R,
    trays: &'s [Tray<'u>],
    bells: &'s [Bell],
    place: usize,
    gate: &'s G,
) -> bool {
    let (Some(tray), Some(bell)) = (trays.get(place), bells.get(place)) else {
        return false;
    };
    match scope.spawn(move || serve(rt, tray, bell, Pause::at(bells, place), gate)) {
        Ok(thread) => {
            drop(thread);
            true
        }
        Err(refused) => {
            drop(refused);
            false
        }
    }
}

/// What a thread does: it polls each unit that it is handed until that has ended. What is laid into its tray before its bell
/// is closed it takes out.
fn serve<R: Wait + Clock, G: Gate>(
    rt: &R,
    tray: &Tray<'_>,
    bell: &Bell,
    mut pause: Pause<'_>,
    gate: &G,
) {
    for _ in rt.forever() {
        let is_over = bell.is_over();
        match lay(rt, tray, None) {
            Some(unit) => run_unit(rt, unit, &mut pause, gate),
            None => {
                if is_over {
                    return;
                }
                pause.rest(rt);
            }
        }
    }
}

/// Polls the unit until it has ended.
fn run_unit<R: Wait + Clock, G: Gate>(rt: &R, mut unit: Unit<'_>, pause: &mut Pause<'_>, gate: &G) {
    pause.begin();
    for _ in rt.forever() {
        match unit.poll(rt, gate) {
            Polled::Moved => pause.moved(),
            Polled::Idle(_) => pause.wait(rt),
            Polled::Ended => {
                pause.ring();
                return;
            }
        }
    }
}
