//! What came of the cuts of a call.

use test_scripts::reported::Reported;

/// What a cut does.
#[derive(Clone, Copy)]
pub enum Cut {
    /// An earlier call is cut.
    Earlier,
    /// The call is cut, and the effect stands.
    WithEffect,
    /// The call is cut, and the effect does not stand.
    Without,
    /// Something is not as it must be; this text says what.
    Wrong(&'static str),
    /// Memory ran out.
    Lost,
    /// The call needs no more bytes, and comes to what it does without a cut, or does not.
    Following(bool),
}

/// What came of the cuts of a call in one direction.
#[derive(Clone, Copy)]
pub struct Tally {
    with_effect: usize,
    without: usize,
    wrong: usize,
    first: Option<(usize, &'static str)>,
    is_lost: bool,
}

impl Tally {
    /// No cut.
    pub fn new() -> Tally {
        Tally {
            with_effect: 0,
            without: 0,
            wrong: 0,
            first: None,
            is_lost: false,
        }
    }

    /// Counts a cut after so many bytes; returns whether it is the last one.
    pub fn add(&mut self, place: usize, cut: Cut) -> bool {
        match cut {
            Cut::Earlier | Cut::Following(true) => {}
            Cut::WithEffect => self.with_effect = self.with_effect.saturating_add(1),
            Cut::Without => self.without = self.without.saturating_add(1),
            Cut::Wrong(wrong) => self.add_wrong(place, wrong),
            Cut::Lost => self.is_lost = true,
            Cut::Following(false) => {
                self.add_wrong(place, "it is not cut, and answers something else")
            }
        }
        matches!(cut, Cut::Following(_) | Cut::Lost)
    }

    fn add_wrong(&mut self, place: usize, wrong: &'static str) {
        self.wrong = self.wrong.saturating_add(1);
        if self.first.is_none() {
            self.first = Some((place, wrong));
        }
    }

    /// Reports what came of the cuts in this direction.
    pub fn report(&self, reported: &mut Reported, direction: &str) {
        if self.is_lost {
            reported.lose();
        }
        let cuts = self.with_effect.saturating_add(self.without);
        reported.begin();
        reported.text(direction);
        reported.number(cuts.saturating_add(self.wrong) as u64);
        reported.text(" cuts, ");
        reported.number(self.with_effect as u64);
        reported.text(" with the effect and ");
        reported.number(self.without as u64);
        reported.text(" without it: ");
        match self.first {
            None => reported.text("as it must be"),
            Some((place, wrong)) => {
                reported.number(self.wrong as u64);
                reported.text(" WRONG, the first behind ");
                reported.number(place as u64);
                reported.text(" bytes: ");
                reported.text(wrong);
            }
        }
        reported.end();
    }
}
