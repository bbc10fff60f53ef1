//! A time at which a run is to stop once.
ghost use Rattle.std.specs.Prelude.{◌≡◌, ◌<◌, ◌≤◌, IfSome};
ghost use Rattle.ds_debug.specs.Places.{earlier};
ghost use Rattle.ds_debug.specs.Times.{still_asked, asked_place, bound_by, is_before, is_passed};

use crate::goals::Stop;
use crate::places::{Place, Sought};
use ds_gdb::Reason;

/// The earlier of two times.
pub(crate) fn earlier(time: u64, limit: u64) -> u64
    ensures value { result ≡ earlier time limit }
    ensures within { result ≤ limit }
{
    if time < limit { time } else { limit }
}

/// Up to when a run goes on: to the time that is asked for, where it lies ahead and before the end.
pub(crate) fn bound_by(asked: Option<u64>, time: u64, limit: u64) -> u64
    ensures value { result ≡ bound_by asked time limit }
    ensures within { result ≤ limit }
{
    match asked {
        Some(asked) if time < asked && asked < limit => asked,
        _ => limit,
    }
}

/// Whether a time lies on the way from one time to another, forward or back.
fn is_passed(asked: u64, old: u64, new: u64) -> bool
    ensures { result ≡ is_passed asked old new }
{
    (old < asked && asked <= new) || (new <= asked && asked < old)
}

/// What is still asked for after a way from one time to another.
pub(crate) fn still_asked(asked: Option<u64>, old: u64, new: u64) -> Option<u64>
    ensures { result ≡ still_asked asked old new }
{
    match asked {
        Some(asked) => {
            if is_passed(asked, old, new) {
                None
            } else {
                Some(asked)
            }
        }
        None => None,
    }
}

/// Whether a place lies before a time.
fn is_before(place: Option<Place>, time: u64) -> bool
    ensures { result ≡ is_before place time }
{
    match place {
        Some(place) => place.time < time,
        None => true,
    }
}

/// The place at which a process stands at a time.
fn place_at(time: u64, process: u32) -> Place
    ensures { result ≡ record { time = time; stop = record { process = process; reason = Reason.Rest } } }
{
    let reason = Reason::Rest;
    let stop = Stop { process, reason };
    Place { time, stop }
}

/// Where the last stop is sought, the time that is asked for is one too, at which this process stands.
pub(crate) fn asked_place(
    sought: Sought,
    asked: Option<u64>,
    until: u64,
    process: u32,
    place: Option<Place>,
) -> Option<Place>
    requires process { process < 256 }
    requires small { IfSome place (λ p. p.stop.process ≤ 100) }
    requires early { IfSome place (λ p. p.time ≤ until) }
    ensures value { result ≡ asked_place sought asked until process place }
    ensures small { IfSome result (λ p. p.stop.process < 256) }
    ensures early { IfSome result (λ p. p.time ≤ until) }
{
    match sought {
        Sought::LastStop => match asked {
            Some(asked) => {
                if asked < until && is_before(place, asked) {
                    Some(place_at(asked, process))
                } else {
                    place
                }
            }
            None => place,
        },
        Sought::LastTurn(_) => place,
    }
}
