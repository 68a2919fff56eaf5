//! Cases whose server says less than it should.

use crate::record::Record;
use std::alloc::Global;
use test_scripts::reported::Reported;

/// What an end of the bytes does.
#[derive(Clone, Copy)]
struct Effect {
    /// The place of the first call that answers otherwise; after all calls where none does.
    place: usize,
    /// Whether this call stops, and those after it are stopped and send nothing.
    stops: bool,
}

/// Where the effect began that is the same since.
#[derive(Clone, Copy)]
struct Run {
    from: usize,
    effect: Effect,
}

/// Plays these lines with each beginning of what the server says in them, and reports what comes of it.
pub fn print_cuts(alloc: Global, lines: &str, reported: &mut Reported) {
    let whole = Record::of(alloc, lines, usize::MAX);
    if whole.is_lost() {
        reported.lose();
    }
    print_runs(alloc, lines, &whole, reported);
    drop(whole);
}

fn print_runs(alloc: Global, lines: &str, whole: &Record, reported: &mut Reported) {
    let mut run = Run {
        from: 0,
        effect: Effect {
            place: usize::MAX,
            stops: false,
        },
    };
    for room in 0..whole.spoken {
        let cut = Record::of(alloc, lines, room);
        if cut.is_lost() {
            reported.lose();
        }
        let effect = effect_of(whole, &cut);
        drop(cut);
        if effect.place != run.effect.place || effect.stops != run.effect.stops {
            run.report(reported, whole, room);
            run = Run { from: room, effect };
        }
    }
    run.report(reported, whole, whole.spoken);
}

/// What an end of the bytes does.
fn effect_of(whole: &Record, cut: &Record) -> Effect {
    let answers = cut.answers.as_str().lines();
    let pairs = whole.answers.as_str().lines().zip(answers);
    for (place, (before, after)) in pairs.enumerate() {
        if before != after {
            return Effect {
                place,
                stops: stops_at(cut, place),
            };
        }
    }
    Effect {
        place: usize::MAX,
        stops: false,
    }
}

/// Whether the call at this place stops, and those after it are stuck.
fn stops_at(cut: &Record, place: usize) -> bool {
    let answers = cut.answers.as_str().lines();
    let mut stops = false;
    for (index, (call, answer)) in cut.calls.as_str().lines().zip(answers).enumerate() {
        if index == place {
            stops = answer.as_bytes().starts_with(b"Stopped");
        } else if place < index {
            stops = stops && is_stuck(call, answer);
        }
    }
    stops
}

/// Whether the call was stopped, or not made, and sent nothing. What only hands a session on has to be done.
fn is_stuck(call: &str, answer: &str) -> bool {
    matches!(answer, "Stopped" | "not made") || matches!(call, "into_session" | "into_link")
}

impl Run {
    /// Reports the cuts of a run, up to this one.
    fn report(self, reported: &mut Reported, whole: &Record, end: usize) {
        if self.from >= end {
            return;
        }
        reported.begin();
        reported.number(end.saturating_sub(self.from) as u64);
        reported.text(" places, ");
        reported.number(self.from as u64);
        reported.text(" to ");
        reported.number(end.saturating_sub(1) as u64);
        reported.text(": ");
        match whole.calls.as_str().lines().nth(self.effect.place) {
            Some(call) => {
                reported.text(call);
                reported.text(if self.effect.stops {
                    ": stopped, and so is each call behind it"
                } else {
                    ": something else"
                });
            }
            None => reported.text("as before"),
        }
        reported.end();
    }
}
