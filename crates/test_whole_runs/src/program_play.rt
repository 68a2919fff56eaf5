//! Who plays the scripts.

use crate::program_stage::ProgramStage;
use crate::scene::Scene;
use crate::stops::play_stops;
use test_scripts::failure::Failure;
use test_scripts::play::{Player, play_all};
use test_scripts::script::Script;
use test_scripts::words::Words;

/// Plays a script of whole runs.
pub fn run(rt: &HostRuntime, script: &mut Script<'_>) -> Result<(), Failure> {
    let mut desk = Desk {
        rt: *rt,
        scene: Scene::new(rt.alloc()),
        stage: None,
    };
    let played = play_all(rt, &mut desk, script);
    drop(desk);
    played
}

/// The scene of a case, and the stage, once the program has run on it.
#[derive(Drop)]
struct Desk {
    rt: HostRuntime,
    scene: Scene,
    stage: Option<ProgramStage>,
}

impl Player for Desk {
    fn begin(&mut self) -> Result<(), Failure> {
        self.stage = None;
        self.scene = Scene::new(self.rt.alloc());
        Ok(())
    }

    fn play(&mut self, line: &mut Words<'_>, script: &mut Script<'_>) -> Result<(), Failure> {
        match line.word() {
            "config" => self.scene.configure(script.block(b"end")?),
            "world" => self.scene.add_world(self.rt.alloc(), script.block(b"end")?),
            "run" => self.play_run(line, script),
            "show" => self.show(script),
            "stops" => {
                let words = self.words(line)?;
                self.stage = None;
                play_stops(&self.rt, &self.scene, &words, &mut script.reported)
            }
            word => self.scene.add(self.rt.alloc(), word, line.rest()),
        }
    }
}

impl Desk {
    /// The words of a command line.
    fn words(&self, line: &mut Words<'_>) -> Result<Vec<String>, Failure> {
        let alloc = self.rt.alloc();
        let mut words = Vec::new(alloc);
        words.push(String::from_str(alloc, "mbsync")?)?;
        for word in line.text().split(' ') {
            words.push(String::from_str(alloc, word)?)?;
        }
        Ok(words)
    }

    /// The stage as the last run left it, or the scene.
    fn stage(&mut self) -> Result<&ProgramStage, Failure> {
        if self.stage.is_none() {
            self.stage = Some(ProgramStage::new(&self.rt, &self.scene)?);
        }
        self.stage.as_ref().ok_or(Failure::Script)
    }

    fn play_run(&mut self, line: &mut Words<'_>, script: &mut Script<'_>) -> Result<(), Failure> {
        let words = self.words(line)?;
        let ran = self.stage()?.run(&words, None)?;
        ran.print(&mut script.reported);
        Ok(())
    }

    fn show(&mut self, script: &mut Script<'_>) -> Result<(), Failure> {
        self.stage()?;
        if let Some(stage) = &self.stage {
            stage.found(&self.scene)?.print(&mut script.reported);
        }
        Ok(())
    }
}
