//! Runs that are interrupted at each call of the system.

use crate::calls::Stop;
use crate::found::FoundMessages;
use crate::program_stage::{ProgramStage, Ran};
use crate::scene::Scene;
use test_scripts::failure::Failure;
use test_scripts::reported::Reported;

/// What runs that nothing interrupts leave, and what the run after them prints.
#[derive(Drop)]
struct Unbroken {
    run: Ran,
    found: FoundMessages,
    idle: Ran,
}

/// In which respect the run after an interrupted one, and the one after that, are others than unbroken ones.
#[derive(Clone, Copy)]
enum Difference {
    /// It does not end with status 0.
    Status,
    /// It leaves other messages.
    Messages,
    /// There is something left to do.
    LeftToDo,
}

impl Difference {
    fn text(self) -> &'static str {
        match self {
            Difference::Status => "the run after it fails",
            Difference::Messages => "the run after it leaves other messages",
            Difference::LeftToDo => "the run after it leaves something to do",
        }
    }
}

/// Interrupts runs with these words at each call of the system, and answers whether each was made good by the run after it.
pub fn play_stops(
    rt: &HostRuntime,
    scene: &Scene,
    words: &[String],
    reported: &mut Reported,
) -> Result<(), Failure> {
    let unbroken = Unbroken::make(rt, scene, words)?;
    if unbroken.run.status != 0 {
        unbroken.run.print(reported);
        return Ok(());
    }
    let mut interruptions = Interruptions {
        rt,
        scene,
        words,
        unbroken: &unbroken,
        are_good: true,
        compared: None,
    };
    for number in 1..=unbroken.run.calls {
        interruptions.interrupt(number, reported)?;
    }
    if interruptions.are_good {
        reported.answer("interrupted before and after each call: made good by the run after it");
    }
    Ok(())
}

impl Unbroken {
    fn make(rt: &HostRuntime, scene: &Scene, words: &[String]) -> Result<Unbroken, Failure> {
        let stage = ProgramStage::new(rt, scene)?;
        Ok(Unbroken {
            run: stage.run(words, None)?,
            found: stage.found(scene)?,
            idle: stage.run(words, None)?,
        })
    }
}

/// Runs that are interrupted.
#[derive(Drop)]
struct Interruptions<'a> {
    rt: &'a HostRuntime,
    scene: &'a Scene,
    words: &'a [String],
    unbroken: &'a Unbroken,
    /// Whether each so far was made good.
    are_good: bool,
    /// After how many changes the run was interrupted that was compared last.
    compared: Option<u32>,
}

impl Interruptions<'_> {
    /// Interrupts runs at this call: before and after it, and where it writes also in the middle.
    fn interrupt(&mut self, number: u32, reported: &mut Reported) -> Result<(), Failure> {
        let is_write = self.play(Stop::Before(number), reported)?;
        if is_write {
            self.play(Stop::Within(number), reported)?;
        }
        self.play(Stop::After(number), reported)?;
        Ok(())
    }

    /// Interrupts a run. Whether the call at which it was interrupted writes.
    ///
    /// The clock stands and random bytes are the same each time, so after the same changes the same stands there: the runs after it are
    /// made once.
    fn play(&mut self, stop: Stop, reported: &mut Reported) -> Result<bool, Failure> {
        let stage = ProgramStage::new(self.rt, self.scene)?;
        let ran = stage.run(self.words, Some(stop))?;
        if stop.is_within() {
            self.compare(&stage, stop, reported)?;
        } else if self.compared != Some(ran.changes) {
            self.compare(&stage, stop, reported)?;
            self.compared = Some(ran.changes);
        }
        Ok(ran.was_write)
    }

    /// Makes the runs after an interrupted one, and answers how they differ.
    fn compare(
        &mut self,
        stage: &ProgramStage,
        stop: Stop,
        reported: &mut Reported,
    ) -> Result<(), Failure> {
        if let Some(difference) = self.difference(stage)? {
            self.are_good = false;
            print_difference(reported, stop, difference);
        }
        Ok(())
    }

    /// The first difference of what stands after an interrupted run and another one.
    fn difference(&self, stage: &ProgramStage) -> Result<Option<Difference>, Failure> {
        if stage.run(self.words, None)?.status != 0 {
            return Ok(Some(Difference::Status));
        }
        if !stage.found(self.scene)?.are(&self.unbroken.found) {
            return Ok(Some(Difference::Messages));
        }
        let idle = stage.run(self.words, None)?;
        if idle.status == 0 && idle.out == self.unbroken.idle.out {
            Ok(None)
        } else {
            Ok(Some(Difference::LeftToDo))
        }
    }
}

fn print_difference(reported: &mut Reported, stop: Stop, difference: Difference) {
    let moment = match stop {
        Stop::Before(_) => "before",
        Stop::Within(_) => "within",
        Stop::After(_) => "after",
    };
    reported.begin();
    reported.text("interrupted ");
    reported.text(moment);
    reported.text(" call ");
    reported.number(u64::from(stop.number()));
    reported.text(": ");
    reported.text(difference.text());
    reported.end();
}
