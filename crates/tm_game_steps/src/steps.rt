//! Steps of processes and tasks.
ghost use Rattle.std.specs.Prelude.{◌≡◌, ◌+◌, ◌<◌, ℕ, Bool, true, List, ◌∷◌, ◌++◌, [], IfOk, OnOk, length};
ghost use Rattle.tm_dd.specs.Reduced.{Extends};
ghost use Rattle.tm_flat.specs.Flat.{flat_terms, step_terms};
ghost use Rattle.tm_game_bits.specs.declared.step.StepDiagrams.{StepDiagrams as Diagrams};
ghost use Rattle.tm_game_steps.specs.Inner.Pushed.{AreProcesses, AreProcessesBelow, AreTaskSteps, IsTelling, MadeFrom, MadeOfTask};
ghost use Rattle.tm_game_steps.specs.Inner.Reading.{AreReadings};
ghost use Rattle.tm_game_steps.specs.Places.{ArePlaces, IsPlace};
ghost use Rattle.tm_game_steps.specs.Setting.{IsGuarded, IsReady, setting_of};
ghost use Rattle.tm_game_steps.specs.Telling.{AreStepTerms, HasTerms};

use crate::encoding::Encoding;
use crate::places::Place;
use crate::reading::above_step;
use std::alloc::AllocError;
use tm_blast::TermBits;
use tm_dd::NodeId;
use tm_ddops::Manager;
use tm_flat::{Flat, FlatStep};
use tm_game_bits::StepDiagrams;

impl Encoding {
    // The step of a process from a place.
    pub(crate) fn process_step(
        &self,
        flat: &Flat,
        place: Place,
        reads: &[u64],
        made: &mut TermBits,
        dd: &mut Manager,
    ) -> Result<StepDiagrams, AllocError>
        requires terms { HasTerms (setting_of self.now) (flat_terms flat.now) }
        requires reads { AreReadings self.now.terms (setting_of self.now).levels reads.now }
        requires place { IsPlace self.now.terms (flat_terms flat.now).magic self.now.first place }
        requires ready { IsReady (setting_of self.now) dd.old.table made.old }

        ensures earlier { Extends dd.old.table dd.new.table }
        ensures ready { IsReady (setting_of self.now) dd.new.table made.new }
        ensures step { IfOk result (MadeFrom (setting_of self.now) (flat_terms flat.now) dd.new.table place) }
    {
        let steps = &flat.processes[place.process];
        let step = &steps[place.location];
        let legal = self.guarded(place.stands, step.legal, made, dd)?;
        let arguments = Vec::new(self.alloc);
        let moves = self.step(legal, step, arguments, reads, made, dd)?;
        Ok(moves)
    }

    // The step of a controllable task.
    pub(crate) fn task_step(
        &self,
        flat: &Flat,
        task: usize,
        reads: &[u64],
        made: &mut TermBits,
        dd: &mut Manager,
    ) -> Result<StepDiagrams, AllocError>
        requires terms { HasTerms (setting_of self.now) (flat_terms flat.now) }
        requires reads { AreReadings self.now.terms (setting_of self.now).levels reads.now }
        requires task { task < length (flat_terms flat.now).tasks }
        requires ready { IsReady (setting_of self.now) dd.old.table made.old }

        ensures earlier { Extends dd.old.table dd.new.table }
        ensures ready { IsReady (setting_of self.now) dd.new.table made.new }
        ensures step { IfOk result (MadeOfTask (setting_of self.now) (flat_terms flat.now) dd.new.table task) }
    {
        let step = &flat.tasks[task];
        let legal = self.truth(step.legal, made, dd)?;
        let arguments = self.arguments()?;
        let calls = self.step(legal, step, arguments, reads, made, dd)?;
        Ok(calls)
    }

    // A step that is legal where a diagram is true.
    fn step(
        &self,
        legal: NodeId,
        step: &FlatStep,
        arguments: Vec<u32>,
        reads: &[u64],
        made: &mut TermBits,
        dd: &mut Manager,
    ) -> Result<StepDiagrams, AllocError>
        requires terms { AreStepTerms (setting_of self.now) (step_terms step.now) }
        requires reads { AreReadings self.now.terms (setting_of self.now).levels reads.now }
        requires ready { IsReady (setting_of self.now) dd.old.table made.old }

        ensures earlier { Extends dd.old.table dd.new.table }
        ensures ready { IsReady (setting_of self.now) dd.new.table made.new }
        ensures step { (test : List ℕ → Bool)
            → IsGuarded (setting_of self.now) dd.old.table test step.now.legal legal
            → IfOk result (IsTelling (setting_of self.now) dd.new.table test arguments.items (step_terms step.now)) }
    {
        let error = self.truth(step.error, made, dd)?;
        let next = self.changed(&step.next, made, dd)?;
        let choices = self.choices_below(above_step(step, reads))?;
        Ok(StepDiagrams {
            legal,
            error,
            next,
            choices,
            arguments,
        })
    }

    // Puts the step of a process from a place behind others, and the process behind theirs.
    fn push_process(
        &self,
        flat: &Flat,
        place: Place,
        reads: &[u64],
        list: &mut Vec<StepDiagrams>,
        movers: &mut Vec<usize>,
        made: &mut TermBits,
        dd: &mut Manager,
    ) -> Result<(), AllocError>
        requires terms { HasTerms (setting_of self.now) (flat_terms flat.now) }
        requires reads { AreReadings self.now.terms (setting_of self.now).levels reads.now }
        requires place { IsPlace self.now.terms (flat_terms flat.now).magic self.now.first place }
        requires ready { IsReady (setting_of self.now) dd.old.table made.old }

        ensures earlier { Extends dd.old.table dd.new.table }
        ensures ready { IsReady (setting_of self.now) dd.new.table made.new }
        ensures step { OnOk result ((step : Diagrams) × (list.new.items ≡ list.old.items ++ step ∷ [])
            × MadeFrom (setting_of self.now) (flat_terms flat.now) dd.new.table place step) }
        ensures mover { OnOk result (movers.new.items ≡ movers.old.items ++ place.process ∷ []) }
    {
        let step = self.process_step(flat, place, reads, made, dd)?;
        list.push(step)?;
        movers.push(place.process)?;
        Ok(())
    }

    // Puts the step of a process from a place of one sort behind others, and the process behind theirs; the step of a
    // place of the other sort is left out.
    fn push_place(
        &self,
        flat: &Flat,
        places: &[Place],
        reads: &[u64],
        index: usize,
        magic: bool,
        list: &mut Vec<StepDiagrams>,
        movers: &mut Vec<usize>,
        made: &mut TermBits,
        dd: &mut Manager,
    ) -> Result<(), AllocError>
        requires terms { HasTerms (setting_of self.now) (flat_terms flat.now) }
        requires reads { AreReadings self.now.terms (setting_of self.now).levels reads.now }
        requires places { ArePlaces self.now.terms (flat_terms flat.now).magic self.now.first places.now }
        requires index { index < length places.now }
        requires ready { IsReady (setting_of self.now) dd.old.table made.old }

        ensures earlier { Extends dd.old.table dd.new.table }
        ensures ready { IsReady (setting_of self.now) dd.new.table made.new }
        ensures steps { (old : List Diagrams) → AreProcessesBelow (setting_of self.now) (flat_terms flat.now) magic
            places.now index dd.old.table old list.old.items movers.old.items → OnOk result
            (AreProcessesBelow (setting_of self.now) (flat_terms flat.now) magic places.now (index + 1) dd.new.table old
            list.new.items movers.new.items) }
    {
        let place = places[index];
        if place.magic != magic {
            return Ok(());
        }
        self.push_process(flat, place, reads, list, movers, made, dd)?;
        Ok(())
    }

    // Puts the steps of all processes from locations of one sort behind others. It answers the processes that take
    // them.
    pub(crate) fn push_processes(
        &self,
        flat: &Flat,
        places: &[Place],
        reads: &[u64],
        magic: bool,
        list: &mut Vec<StepDiagrams>,
        made: &mut TermBits,
        dd: &mut Manager,
    ) -> Result<Vec<usize>, AllocError>
        requires terms { HasTerms (setting_of self.now) (flat_terms flat.now) }
        requires reads { AreReadings self.now.terms (setting_of self.now).levels reads.now }
        requires places { ArePlaces self.now.terms (flat_terms flat.now).magic self.now.first places.now }
        requires ready { IsReady (setting_of self.now) dd.old.table made.old }

        ensures earlier { Extends dd.old.table dd.new.table }
        ensures ready { IsReady (setting_of self.now) dd.new.table made.new }
        ensures steps { IfOk result (λ movers. AreProcesses (setting_of self.now) (flat_terms flat.now) magic
            dd.new.table list.old.items list.new.items movers.items) }
    {
        let mut movers = Vec::new(self.alloc);
        for index in 0..places.len() {
            self.push_place(
                flat,
                places,
                reads,
                index,
                magic,
                list,
                &mut movers,
                made,
                dd,
            )?;
        }
        Ok(movers)
    }

    // Puts the steps of all controllable tasks behind others.
    pub(crate) fn push_tasks(
        &self,
        flat: &Flat,
        reads: &[u64],
        list: &mut Vec<StepDiagrams>,
        made: &mut TermBits,
        dd: &mut Manager,
    ) -> Result<(), AllocError>
        requires terms { HasTerms (setting_of self.now) (flat_terms flat.now) }
        requires reads { AreReadings self.now.terms (setting_of self.now).levels reads.now }
        requires ready { IsReady (setting_of self.now) dd.old.table made.old }

        ensures earlier { Extends dd.old.table dd.new.table }
        ensures ready { IsReady (setting_of self.now) dd.new.table made.new }
        ensures steps { OnOk result (AreTaskSteps (setting_of self.now) (flat_terms flat.now)
            dd.new.table list.old.items list.new.items (length (flat_terms flat.now).tasks)) }
    {
        for task in 0..flat.tasks.len() {
            let step = self.task_step(flat, task, reads, made, dd)?;
            list.push(step)?;
        }
        Ok(())
    }
}
